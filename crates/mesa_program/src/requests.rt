//! Requests of a folder, and calls of them in which one call on the outside fails.
use crate::calls::{Call, Left, called, folder_failing, is_left, left_on, made_call};
use mesa_base::{MemoryFolder, OutOfMemory};
use std::alloc::Global;
use std::test::Fail;

/// A call with this input, which asks the folder for these files in order: so many are read, and then the others are written. What a
/// whole call prints.
#[derive(Clone, Copy)]
pub struct Request<'a> {
    pub words: &'a str,
    pub bytes: &'a str,
    pub files: &'a [&'a str],
    pub reads: usize,
    pub printed: &'a str,
}

/// The streams of a run.
#[derive(Clone, Copy)]
pub enum Stream {
    Input,
    Out,
}

/// A folder with the files that the request reads, as they stand in the whole one. Its calls with these numbers fail.
fn folder_for(
    alloc: Global,
    whole: &MemoryFolder,
    request: &Request<'_>,
    failing: &[u32],
) -> Result<MemoryFolder, OutOfMemory> {
    let mut folder = folder_failing(alloc, failing)?;
    for name in request.files.iter().take(request.reads) {
        if let Some(bytes) = whole.get(name) {
            folder.insert(name, bytes)?;
        }
    }
    Ok(folder)
}

/// Whether the file stands here as it does in the whole folder.
pub fn is_whole(whole: &MemoryFolder, folder: &MemoryFolder, name: &str) -> bool {
    match (whole.get(name), folder.get(name)) {
        (Some(bytes), Some(same)) => bytes == same,
        _ => false,
    }
}

/// Whether the files that are read, and those that are written before this one, stand as they do in the whole folder, and none of
/// those behind it is there.
fn is_left_at(
    whole: &MemoryFolder,
    folder: &MemoryFolder,
    request: &Request<'_>,
    failed: usize,
) -> bool {
    for (at, name) in request.files.iter().enumerate() {
        let stands = at < failed || at < request.reads;
        if stands && !is_whole(whole, folder, name) {
            return false;
        }
        if !stands && at > failed && folder.get(name).is_some() {
            return false;
        }
    }
    true
}

/// Whether the call ends at this file where the call on the folder for it fails: no byte of the input was read then.
fn is_stopped_at(
    rt: &HostRuntime,
    whole: &MemoryFolder,
    request: &Request<'_>,
    failed: usize,
    name: &str,
) -> Result<bool, Fail> {
    let number = u32::try_from(failed)?;
    let mut folder = folder_for(rt.alloc(), whole, request, &[number])?;
    let left = left_on(rt, &mut folder, request.words, request.bytes)?;
    let line = format!(in rt.alloc(); "{name}: folder failed\n")?;
    Ok(
        is_left(&left, 8, "", line.as_str())
            && left.next == request.bytes.as_bytes().first().copied()
            && is_left_at(whole, &folder, request, failed),
    )
}

/// Whether the request is done and all its files stand, though these calls fail, which are behind the last on the folder or a stream.
fn is_done(
    rt: &HostRuntime,
    whole: &MemoryFolder,
    request: &Request<'_>,
    failing: &[u32],
    made: &Call<'_>,
) -> Result<bool, OutOfMemory> {
    let mut folder = folder_for(rt.alloc(), whole, request, failing)?;
    let left = called(rt.alloc(), &mut folder, made)?;
    Ok(
        is_left(&left, 0, request.printed, "")
            && is_left_at(whole, &folder, request, request.files.len()),
    )
}

/// Whether each call on the folder that the request makes ends it where it fails, and one more than the last does not.
pub fn folder_fails_in_turn(
    rt: &HostRuntime,
    whole: &MemoryFolder,
    request: &Request<'_>,
) -> Result<bool, Fail> {
    for (at, name) in request.files.iter().enumerate() {
        if !is_stopped_at(rt, whole, request, at, name)? {
            return Ok(false);
        }
    }
    let behind = [u32::try_from(request.files.len())?];
    let made = made_call(request.words, request.bytes);
    Ok(is_done(rt, whole, request, &behind, &made)?)
}

/// The call of the request in which these calls on the stream fail.
fn call_failing<'a>(request: &Request<'a>, stream: Stream, failing: &'a [u32]) -> Call<'a> {
    let plain = made_call(request.words, request.bytes);
    match stream {
        Stream::Input => Call {
            input: failing,
            ..plain
        },
        Stream::Out => Call {
            out: failing,
            ..plain
        },
    }
}

/// Whether this was left where the stream failed.
fn is_cut(left: &Left, stream: Stream, printed: &str) -> bool {
    match stream {
        Stream::Input => is_left(left, 6, printed, "input failed\n"),
        Stream::Out => is_left(left, 7, printed, "output failed\n"),
    }
}

/// Whether the run ends where the call of this number on the stream fails, with this printed before; all its files stand then.
fn is_cut_at(
    rt: &HostRuntime,
    whole: &MemoryFolder,
    request: &Request<'_>,
    stream: Stream,
    failed: usize,
    printed: &str,
) -> Result<bool, Fail> {
    let failing = [u32::try_from(failed)?];
    let mut folder = folder_for(rt.alloc(), whole, request, &[])?;
    let made = call_failing(request, stream, &failing);
    let left = called(rt.alloc(), &mut folder, &made)?;
    Ok(is_cut(&left, stream, printed) && is_left_at(whole, &folder, request, request.files.len()))
}

/// Whether each call on the stream ends the run where it fails, with so much printed before, and one more than the last does not.
pub fn stream_fails_in_turn(
    rt: &HostRuntime,
    whole: &MemoryFolder,
    request: &Request<'_>,
    stream: Stream,
    outputs: &[&str],
) -> Result<bool, Fail> {
    for (at, printed) in outputs.iter().enumerate() {
        if !is_cut_at(rt, whole, request, stream, at, printed)? {
            return Ok(false);
        }
    }
    let behind = [u32::try_from(outputs.len())?];
    let made = call_failing(request, stream, &behind);
    Ok(is_done(rt, whole, request, &[], &made)?)
}
