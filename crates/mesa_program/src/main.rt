//! The program: it makes the real folder and streams, and hands them with its words to `mesa`. Its tests are trials of `mesa` over objects in
//! memory.
#![tactic(auto)]

#[cfg(test)]
mod calls;
#[cfg(test)]
mod configurations;
#[cfg(test)]
mod demo;
#[cfg(test)]
mod failing;
#[cfg(test)]
mod limits;
#[cfg(test)]
mod requests;
#[cfg(test)]
mod storing;

ghost use Rattle.std.specs.Prelude.{◌≡◌, ◌<◌, [], IsUtf8};

use mesa_base::{DirFolder, InSource, OutOfMemory, OutSink, Status, Steps, Words};
use mesa_command::{Stop, mesa, tell_stop};
use std::alloc::Global;
use std::env::FillError;
use std::io::Input;
use std::marker::Brand;
use std::process::ExitCode;
use std::rt::Env;
use std::sync::ledger::{Blank, Ledger};

/// The most bytes of a word that has a form are far below this; a longer word is handed on as one that has none.
const WORD_ROOM: usize = 4096;

fn main(rt: HostRuntime) -> ExitCode {
    ExitCode::from(command::<Brand>(rt, Blank::new(1)).code())
}

/// The call of `mesa` on the real things, with its steps in a ledger of their own.
fn command<L: Ledger>(rt: HostRuntime, blank: Blank) -> Status
    requires name { blank.name ≡ L.name }
    requires parts { blank.parts ≡ L.parts }
    requires some { 0 < blank.parts }
{
    let alloc = rt.alloc();
    let mut err = OutSink::new(rt.stderr());
    let Ok(words) = words_after_name(&rt, alloc) else {
        tell_stop(&Stop::Memory, &mut err);
        return Status::Memory;
    };
    let mut folder = DirFolder::new(rt);
    let mut input = InSource::new(rt.reader());
    let mut out = OutSink::new(rt.stdout());
    let mut steps = Steps::<L>::new(blank);
    mesa(
        alloc,
        &words,
        &mut folder,
        &mut input,
        &mut out,
        &mut err,
        &mut steps,
    )
}

/// The words after the program's name. One that isn't UTF-8, or is longer than any that has a form, is the empty word.
fn words_after_name<R: Env>(rt: &R, alloc: Global) -> Result<Words, OutOfMemory> {
    let mut words = Words::new(alloc);
    let mut room = [0; WORD_ROOM];
    for at in 1..usize::MAX {
        match rt.arg(at, &mut room) {
            Ok(length) => words.push(text_or_empty(&room[..length]))?,
            Err(FillError::TooLong) => words.push(&[])?,
            Err(FillError::NotPresent) => break,
        }
    }
    Ok(words)
}

/// The word where it is UTF-8, else the empty word.
fn text_or_empty(word: &[u8]) -> &[u8]
    ensures text { IsUtf8 word.now → result.now ≡ word.now }
    ensures empty { ¬ (IsUtf8 word.now) → result.now ≡ [] }
{
    match str::from_utf8(word) {
        Ok(_) => word,
        Err(_) => &[],
    }
}
