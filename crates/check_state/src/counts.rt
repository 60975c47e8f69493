//! Counts of words and numbers. One that has no room in its type is no module's, and wants memory.
ghost use Rattle.std.specs.Prelude.{◌≡◌, ◌+◌, IfOk};

use mesa_types::mesa_base::OutOfMemory;

pub fn sum(count: u64, more: u32) -> Result<u64, OutOfMemory>
    ensures { IfOk result (λ both. both ≡ count + more) }
{
    match count.checked_add(u64::from(more)) {
        Some(both) => Ok(both),
        None => Err(OutOfMemory),
    }
}

pub fn next(number: u32) -> Result<u32, OutOfMemory>
    ensures { IfOk result (λ next. next ≡ number + 1) }
{
    match number.checked_add(1) {
        Some(next) => Ok(next),
        None => Err(OutOfMemory),
    }
}

/// As a number of 32 bits.
pub fn narrow(count: usize) -> Result<u32, OutOfMemory>
    ensures { IfOk result (λ same. same ≡ count) }
{
    if count <= 4294967295 {
        Ok(count as u32)
    } else {
        Err(OutOfMemory)
    }
}

/// As a number of 16 bits.
pub fn narrower(count: usize) -> Result<u16, OutOfMemory>
    ensures { IfOk result (λ same. same ≡ count) }
{
    if count <= 65535 {
        Ok(count as u16)
    } else {
        Err(OutOfMemory)
    }
}
