//! A whole program: where its statements are, and then its code.

ghost use Rattle.std.specs.Prelude.{◌≡◌, IfOk};
ghost use Rattle.program_soundness.specs.Listings.{text_of};
ghost use Rattle.polish_code.specs.KeptCode.{code_kept};
ghost use Rattle.polish_code.specs.Lowered.{coded};

use crate::program::{emit_program, loops_in_front, places_in};
use crate::words::words_in;
use basic_values::NoMemory;
use code_places::Placement;
use polish_code::Code;
use program_soundness::Tables;
use std::alloc::Global;

/// Returns the places of the program of these tables.
pub fn placed<'a>(alloc: Global, tables: Tables<'a>) -> Result<Placement<'a>, NoMemory>
    ensures { IfOk result (λ placement. placement ≡ tables.entry) }
{
    let all = tables.listing().statements();
    let places = places_in(alloc, all)?;
    let loops = loops_in_front(alloc, all)?;
    Ok(Placement::new(tables, places, loops))
}

/// Returns the code of a program whose places are known.
pub fn whole_code(alloc: Global, placement: &Placement<'_>) -> Result<Code, NoMemory>
    ensures { IfOk result (λ code. code_kept code ≡ coded (text_of placement.now)) }
{
    let listing = placement.listing();
    let items = emit_program(alloc, placement, listing.statements(), placement.loops())?;
    let words = words_in(alloc, listing.statements())?;
    let lines = placement.line_places(alloc)?;
    Ok(Code::new(items, words, lines))
}
