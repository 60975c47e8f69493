//! The head of a file, and the offset of a fault.
ghost use Rattle.std.specs.Prelude.{◌≡◌, ◌≢◌, ◌≤◌, length, take, drop, OnOk, IfOk, IfErr};
ghost use Rattle.file_forms.specs.Files.{fault_of};
ghost use Rattle.file_forms.specs.Opening.{Opens, left_of};

use crate::cursor::FileCursor;
use crate::stopped::Stopped;
use mesa_base::FileFault;
use mesa_base::limits::FILE_BYTES;

/// What stands behind the three letters of a file.
pub fn opened<'a>(bytes: &'a [u8], letters: &[u8; 3]) -> Result<FileCursor<'a>, FileFault>
    ensures { Opens letters.now bytes.now result }
{
    if bytes.len() > FILE_BYTES {
        return Err(FileFault::TooLong);
    }
    let there = bytes.len().min(3);
    if bytes[..there] != letters[..there] {
        return Err(FileFault::BadMagic);
    }
    if bytes.len() < 3 {
        return Err(FileFault::Cut(bytes.len() as u64));
    }
    Ok(FileCursor { rest: &bytes[3..] })
}

/// The fault of a file of so many bytes whose reading stopped.
pub fn fault_at(whole: usize, why: Stopped) -> FileFault
    requires { left_of why ≤ whole }
    ensures { result ≡ fault_of whole why }
{
    match why {
        Stopped::Cut => FileFault::Cut(whole as u64),
        Stopped::Bad(field, left) => FileFault::BadField((whole - left) as u64, field),
        Stopped::Memory => FileFault::Memory,
    }
}
