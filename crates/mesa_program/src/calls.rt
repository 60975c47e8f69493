//! Calls of `mesa` over objects in memory.
ghost use Rattle.std.specs.Prelude.{◌≡◌, ◌<◌};

use mesa_base::{
    Bytes, List, MemoryFolder, MemorySink, MemorySource, Numbers, OutOfMemory, Source, Status,
    Steps, Words,
};
use mesa_command::mesa;
use std::alloc::{AllocError, Global};
use std::marker::Brand;
use std::sync::ledger::{Blank, Ledger};

/// What a call is made on beside its folder: its words with blanks between, the bytes of the input, and the calls on the streams
/// that fail.
#[derive(Clone, Copy)]
pub struct Call<'a> {
    pub words: &'a str,
    pub bytes: &'a [u8],
    pub input: &'a [u32],
    pub out: &'a [u32],
    pub err: &'a [u32],
}

/// A call in which no call on the streams fails.
pub fn made_call<'a>(words: &'a str, bytes: &'a str) -> Call<'a> {
    Call {
        words,
        bytes: bytes.as_bytes(),
        input: &[],
        out: &[],
        err: &[],
    }
}

/// What a call left: its exit status, what `out` and `err` received, and the byte that the input gives next.
#[derive(Drop)]
pub struct Left {
    pub status: u8,
    pub out: Bytes,
    pub err: Bytes,
    pub next: Option<u8>,
}

fn numbers(alloc: Global, all: &[u32]) -> Result<Numbers, OutOfMemory> {
    List::from_slice(alloc, all)
}

fn words_of(alloc: Global, line: &str) -> Result<Words, OutOfMemory> {
    let mut words = Words::new(alloc);
    for word in line.split(' ') {
        if !word.is_empty() {
            words.push(word.as_bytes())?;
        }
    }
    Ok(words)
}

/// The streams in memory that a call is made on.
#[derive(Drop)]
struct Streams {
    input: MemorySource,
    out: MemorySink,
    err: MemorySink,
}

/// An empty folder, whose calls with these numbers fail.
pub fn folder_failing(alloc: Global, failing: &[u32]) -> Result<MemoryFolder, OutOfMemory> {
    let failing = numbers(alloc, failing)?;
    Ok(MemoryFolder::new(alloc, failing))
}

/// A folder with this text in M.mesa.
pub fn folder_with(alloc: Global, text: &str) -> Result<MemoryFolder, OutOfMemory> {
    let mut folder = folder_failing(alloc, &[])?;
    folder.insert("M.mesa", text.as_bytes())?;
    Ok(folder)
}

fn source_of(alloc: Global, call: &Call<'_>) -> Result<MemorySource, OutOfMemory> {
    let failing = numbers(alloc, call.input)?;
    MemorySource::new(alloc, call.bytes, failing)
}

fn sink_of(alloc: Global, failing: &[u32]) -> Result<MemorySink, OutOfMemory> {
    let failing = numbers(alloc, failing)?;
    MemorySink::new(alloc, 4096, failing)
}

fn streams_of(alloc: Global, call: &Call<'_>) -> Result<Streams, OutOfMemory> {
    let input = source_of(alloc, call)?;
    let out = sink_of(alloc, call.out)?;
    let err = sink_of(alloc, call.err)?;
    Ok(Streams { input, out, err })
}

fn counted<L: Ledger>(
    alloc: Global,
    blank: Blank,
    words: &Words,
    folder: &mut MemoryFolder,
    streams: &mut Streams,
) -> Status
    requires name { blank.name ≡ L.name }
    requires parts { blank.parts ≡ L.parts }
    requires some { 0 < blank.parts }
{
    let mut steps = Steps::<L>::new(blank);
    mesa(
        alloc,
        words,
        folder,
        &mut streams.input,
        &mut streams.out,
        &mut streams.err,
        &mut steps,
    )
}

fn left_in(alloc: Global, status: Status, streams: &mut Streams) -> Result<Left, OutOfMemory> {
    let out = List::from_slice(alloc, streams.out.bytes())?;
    let err = List::from_slice(alloc, streams.err.bytes())?;
    let next = streams.input.next().unwrap_or(None);
    Ok(Left {
        status: status.code(),
        out,
        err,
        next,
    })
}

pub fn called(
    alloc: Global,
    folder: &mut MemoryFolder,
    call: &Call<'_>,
) -> Result<Left, OutOfMemory> {
    let words = words_of(alloc, call.words)?;
    let mut streams = streams_of(alloc, call)?;
    let status = counted::<Brand>(alloc, Blank::new(1), &words, folder, &mut streams);
    left_in(alloc, status, &mut streams)
}

/// A call on this folder, in which no call on the streams fails.
pub fn left_on(
    rt: &HostRuntime,
    folder: &mut MemoryFolder,
    words: &str,
    bytes: &str,
) -> Result<Left, OutOfMemory> {
    called(rt.alloc(), folder, &made_call(words, bytes))
}

/// A call without input on a folder with this text in M.mesa, in which no call on the outside fails.
pub fn left_by(rt: &HostRuntime, words: &str, text: &str) -> Result<Left, OutOfMemory> {
    let mut folder = folder_with(rt.alloc(), text)?;
    left_on(rt, &mut folder, words, "")
}

pub fn is_left(left: &Left, status: u8, out: &str, err: &str) -> bool {
    left.status == status
        && left.out.as_slice() == out.as_bytes()
        && left.err.as_slice() == err.as_bytes()
}

/// The module M that opens the built-in interface, with this inside.
pub fn module_with(alloc: Global, inside: &str) -> Result<String, AllocError> {
    format!(in alloc;
        "DIRECTORY IODefs: FROM \"IODefs\"; M: PROGRAM IMPORTS IODefs = BEGIN OPEN IODefs; {inside} END."
    )
}
