//! Numbers of instructions. If a number is too large for an instruction, the call reports that
//! memory ran out.

ghost use Rattle.std.specs.Prelude.{◌≡◌, suc, ◌+◌, IfOk, OnOk, OnErr};

use basic_values::NoMemory;

/// Returns a length as a number of instructions.
pub fn counted(length: usize) -> Result<u32, NoMemory>
    ensures { IfOk result (λ count. count ≡ length) }
{
    match u32::try_from(length) {
        Ok(count) => Ok(count),
        Err(_) => Err(NoMemory),
    }
}

pub fn sum(a: u32, b: u32) -> Result<u32, NoMemory>
    ensures { IfOk result (λ sum. sum ≡ a + b) }
{
    match a.checked_add(b) {
        Some(sum) => Ok(sum),
        None => Err(NoMemory),
    }
}

/// Adds to a total. If the sum does not fit, the total stays as it was.
pub fn add(total: &mut u32, count: u32) -> Result<(), NoMemory>
    ensures added { OnOk result (total.new ≡ total.old + count) }
    ensures memory { OnErr result (total.new ≡ total.old) }
{
    *total = sum(*total, count)?;
    Ok(())
}

pub fn next(n: u32) -> Result<u32, NoMemory>
    ensures { IfOk result (λ next. next ≡ suc n) }
{
    sum(n, 1)
}
