//! Names of files.

ghost use Rattle.std.specs.Prelude.{◌≡◌, ◌++◌, IfOk, MatchOption};
ghost use Rattle.std.specs.Str.{IsAscii};

use mesa_base::OutOfMemory;
use std::alloc::Global;
use std::marker::Model;
use std::string::String;

/// The name of a file of the folder.
#[derive(Drop)]
pub struct FileName {
    text: String,
}

impl Model for FileName {
    ghost use Rattle.std.specs.Prelude.{List, ℕ};
    ghost use Rattle.std.specs.String.{string_bytes};

    ghost Value = { List ℕ };

    ghost view = { λ name. string_bytes name.text };
}

impl FileName {
    pub fn as_str(&self) -> &str
        ensures { result.now ≡ self.now }
    {
        self.text.as_str()
    }
}

fn text_of(bytes: &[u8]) -> Option<&str>
    ensures { MatchOption result (¬ (IsAscii bytes.now)) (λ text. text.now ≡ bytes.now) }
{
    match str::from_utf8(bytes) {
        Ok(text) => Some(text),
        Err(_) => None,
    }
}

fn joined(alloc: Global, base: &str, ending: &str) -> Result<FileName, OutOfMemory>
    ensures { IfOk result (λ name. name ≡ base.now ++ ending.now) }
{
    let mut text = String::from_str(alloc, base)?;
    text.push_str(ending)?;
    Ok(FileName { text })
}

/// The name with this ending, as `.mesa`, of a base, whose bytes are those of plain letters, digits and marks.
pub fn file_named(alloc: Global, base: &[u8], ending: &str) -> Result<FileName, OutOfMemory>
    requires { IsAscii base.now }
    ensures { IfOk result (λ name. name ≡ base.now ++ ending.now) }
{
    match text_of(base) {
        Some(base) => joined(alloc, base, ending),
        None => unreachable!(),
    }
}
