//! The string functions of BASIC-PLUS, over byte strings and integers. Each call promises what the
//! manual's function of that name gives; `laws` says how the functions relate to each other.
#![tactic(auto)]

mod bytes;
mod cuts;
pub mod laws;
mod numerals;
mod pairs;
mod places;
mod readings;
mod signs;
mod translations;

pub use bytes::{ascii, chr, space, string};
pub use cuts::{Cut, left, left_cut, len, mid, mid_cut, right, right_cut};
pub use numerals::{digits, num, num1};
pub use pairs::{number_of, text_of};
pub use places::instr;
pub use readings::{item_number, val};
pub use signs::{abs, sgn};
pub use translations::xlate;
