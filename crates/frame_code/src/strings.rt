//! The string literals of a module.
ghost use Rattle.std.specs.Prelude.{◌≡◌, ◌<◌, All, IfOk};
ghost use Rattle.frame_code.specs.Code.{AreOfBytes};

use mesa_base::{Bytes, List, OutOfMemory, Texts};
use std::alloc::Global;

fn bytes_of(alloc: Global, text: &[u8]) -> Result<Bytes, OutOfMemory>
    ensures same { IfOk result (λ copy. copy ≡ text.now) }
    ensures bytes { IfOk result (λ copy. All (λ b. b < 256) copy) }
{
    Ok(List::from_slice(alloc, text)?)
}

/// The same texts.
pub fn copied(alloc: Global, texts: &[Bytes]) -> Result<Texts, OutOfMemory>
    ensures same { IfOk result (λ copy. copy ≡ texts.now) }
    ensures bytes { IfOk result AreOfBytes }
{
    let mut copy = List::new(alloc);
    for text in texts {
        copy.push(bytes_of(alloc, text.as_slice())?)?;
    }
    Ok(copy)
}
