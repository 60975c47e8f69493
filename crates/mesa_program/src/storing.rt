//! Files that are written: calls on the outside that fail, for each form of the words, and the parts of `go` against the whole.
use crate::calls::left_on;
use crate::demo::{BOTH, DEFINE, INPUT, OUTPUT, leaves, texts_with};
use crate::requests::{Request, Stream, folder_fails_in_turn, is_whole, stream_fails_in_turn};
use mesa_base::{MemoryFolder, OutOfMemory};
use std::test::Fail;

const GO: Request<'static> = Request {
    words: "go Demo.config 22",
    bytes: INPUT,
    files: &[
        "Demo.config",
        "Server.mesa",
        "AskDefs.mif",
        "Main.mesa",
        "AskDefs.mif",
        "Server.mob",
        "Main.mob",
        "Demo.mim",
    ],
    reads: 5,
    printed: OUTPUT,
};

const RUN: Request<'static> = Request {
    words: "run Demo 22",
    bytes: INPUT,
    files: &["Demo.mim"],
    reads: 1,
    printed: OUTPUT,
};

const LISTING: &str = "INTERFACE AskDefs 00000000000A\n\
    PROCEDURE Ask [x: INTEGER] RETURNS [INTEGER]\n\
    SIGNAL S [x: INTEGER] RETURNS [INTEGER]\n";

const REQUESTS: [Request<'static>; 8] = [
    GO,
    Request {
        words: DEFINE,
        bytes: INPUT,
        files: &["AskDefs.mesa", "AskDefs.mif"],
        reads: 1,
        printed: "",
    },
    Request {
        words: "compile Server",
        bytes: INPUT,
        files: &["Server.mesa", "AskDefs.mif", "Server.mob"],
        reads: 2,
        printed: "",
    },
    Request {
        words: "bind Demo",
        bytes: INPUT,
        files: &["Demo.config", "Server.mob", "Main.mob", "Demo.mim"],
        reads: 3,
        printed: "",
    },
    RUN,
    // The second image finds the input at its end.
    Request {
        words: "run Demo Demo 25",
        bytes: INPUT,
        files: &["Demo.mim", "Demo.mim"],
        reads: 2,
        printed: "s45s78..",
    },
    Request {
        words: "list AskDefs.mif",
        bytes: INPUT,
        files: &["AskDefs.mif"],
        reads: 1,
        printed: LISTING,
    },
    Request {
        words: "plan Main Server AskDefs",
        bytes: INPUT,
        files: &[
            "Main.mesa",
            "Server.mesa",
            "AskDefs.mesa",
            "Main.mob",
            "Server.mob",
            "AskDefs.mif",
        ],
        reads: 6,
        printed: "order AskDefs\norder Main\norder Server\n",
    },
];

/// The texts, with all files that `go` makes of them.
fn whole(rt: &HostRuntime) -> Result<MemoryFolder, OutOfMemory> {
    let mut folder = texts_with(rt.alloc(), BOTH)?;
    left_on(rt, &mut folder, DEFINE, "")?;
    left_on(rt, &mut folder, GO.words, "")?;
    Ok(folder)
}

#[test]
fn calls_on_the_folder_that_fail(rt: HostRuntime) -> Result<(), Fail> {
    let whole = whole(&rt)?;
    for request in REQUESTS {
        assert!(rt; folder_fails_in_turn(&rt, &whole, &request)?);
    }
    Ok(())
}

/// Whether each call on the streams ends the run of two instances where it fails.
fn is_cut_in_turn(
    rt: &HostRuntime,
    whole: &MemoryFolder,
    request: &Request<'_>,
) -> Result<bool, Fail> {
    let written = ["", "s", "s4", "s45", "s45s", "s45s7", "s45s78"];
    let read = ["", "s45", "s45s78"];
    Ok(
        stream_fails_in_turn(rt, whole, request, Stream::Out, &written)?
            && stream_fails_in_turn(rt, whole, request, Stream::Input, &read)?,
    )
}

#[test]
fn calls_on_the_streams_that_fail(rt: HostRuntime) -> Result<(), Fail> {
    let whole = whole(&rt)?;
    assert!(rt; is_cut_in_turn(&rt, &whole, &GO)? && is_cut_in_turn(&rt, &whole, &RUN)?);
    Ok(())
}

/// Whether each of these is done and prints nothing.
fn are_done(
    rt: &HostRuntime,
    folder: &mut MemoryFolder,
    all_words: &[&str],
) -> Result<bool, OutOfMemory> {
    for words in all_words {
        if !leaves(rt, folder, words, 0, "", "")? {
            return Ok(false);
        }
    }
    Ok(true)
}

/// Whether `compile` of each, `bind` and `run` leave the files and the output of `go`.
fn are_parts_like(rt: &HostRuntime, whole: &MemoryFolder) -> Result<bool, OutOfMemory> {
    let mut folder = texts_with(rt.alloc(), BOTH)?;
    let parts = [DEFINE, "compile Server", "compile Main", "bind Demo"];
    Ok(
        are_done(rt, &mut folder, &parts)?
            && GO.files.iter().all(|name| is_whole(whole, &folder, name))
            && leaves(rt, &mut folder, RUN.words, 0, OUTPUT, "")?,
    )
}

#[test]
fn parts_make_what_go_makes(rt: HostRuntime) -> Result<(), Fail> {
    let whole = whole(&rt)?;
    assert!(rt; are_parts_like(&rt, &whole)?);
    Ok(())
}
