//! The rest of a program, if there is none: sizes do not depend on it.

ghost use Rattle.std.specs.Prelude.{[]};

use crate::lookups::Lookups;
use basic_tree::{Name, Series};
use basic_values::NoMemory;
use polish_code::Home;
use std::alloc::Global;
use virtual_arrays::VirtualShape;

/// A program without lines.
pub struct Nowhere;

impl Lookups for Nowhere {
    ghost program = { λ nowhere. [] };

    fn line_place(&self, _number: u16) -> u32 {
        0
    }

    fn body_place(&self, _function: Name) -> Result<Option<u32>, NoMemory> {
        Ok(None)
    }

    fn parameters(&self, alloc: Global, _function: Name) -> Result<Series<Name>, NoMemory> {
        Ok(Series::from_vec(Vec::new(alloc)))
    }

    fn home(&self, _m: usize) -> Home {
        Home {
            start: 0,
            behind: 0,
            line: 0,
        }
    }

    fn past_body(&self, _m: usize) -> u32 {
        0
    }

    fn past_next(&self, _m: usize) -> u32 {
        0
    }

    fn past_for(&self, _m: usize) -> u32 {
        0
    }

    fn loop_place(&self, _m: usize) -> u32 {
        0
    }

    fn array(&self, _name: Name) -> Option<VirtualShape> {
        None
    }
}
