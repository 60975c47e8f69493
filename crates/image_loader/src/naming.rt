//! The names before the paths of images.

ghost use Rattle.std.specs.Prelude.{◌≡◌, ◌+◌, ◌<◌, ◌∷◌, ◌++◌, codes, decimal, IfOk};

use mesa_base::{Decimal, List, Name, OutOfMemory, Path};
use std::alloc::Global;

fn spelled(alloc: Global, number: u32) -> Result<List<u8>, OutOfMemory>
    ensures { IfOk result (λ bytes. bytes ≡ codes "I" ++ decimal (number + 1)) }
{
    let digits = Decimal::of(u64::from(number) + 1);
    let mut bytes = List::of(alloc, b'I')?;
    bytes.extend_from_slice(digits.as_bytes())?;
    Ok(bytes)
}

/// The name that is put before the paths of the image of this number, from 0: I1, I2 and so on.
pub fn image_name(alloc: Global, number: u32) -> Result<Name, OutOfMemory>
    requires { number < 16 }
    ensures { IfOk result (λ name. name ≡ codes "I" ++ decimal (number + 1)) }
{
    let bytes = spelled(alloc, number)?;
    match Name::new(alloc, bytes.as_slice())? {
        Some(name) => Ok(name),
        None => unreachable!(),
    }
}

/// The path with the name before it.
pub fn path_behind(alloc: Global, name: &Name, path: &Path) -> Result<Path, OutOfMemory>
    ensures { IfOk result (λ made. made ≡ name.now ∷ path.now) }
{
    let mut made = List::of(alloc, name.copy(alloc)?)?;
    for part in path.as_slice() {
        made.push(part.copy(alloc)?)?;
    }
    Ok(made)
}
