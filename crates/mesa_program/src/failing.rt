//! Words without a form, files that are not there, and calls on the outside that fail where one module is run.
use crate::calls::{Call, called, folder_with, is_left, left_by, left_on, made_call, module_with};
use crate::requests::{Request, Stream, folder_fails_in_turn, stream_fails_in_turn};
use mesa_base::{MemoryFolder, OutOfMemory};
use std::test::Fail;

const NOTHING: &str = "Nothing: PROGRAM = BEGIN END.";

const COUNT: &str =
    "i: INTEGER ← 3; WHILE i > 0 DO WriteDecimal[i]; i ← i - 1; ENDLOOP; WriteChar['x];";

const SUM: &str =
    "n: INTEGER ← 0; UNTIL EndOfInput[] DO n ← n + (ReadChar[] - '0) ENDLOOP; WriteDecimal[n];";

const UNWINDING: &str =
    "E: ERROR = CODE; C: PROCEDURE = BEGIN ENABLE UNWIND => WriteChar['c]; ERROR E; END; \
    B: PROCEDURE = BEGIN ENABLE UNWIND => WriteChar['b]; C[]; END; \
    A: PROCEDURE = BEGIN B[! E => BEGIN WriteChar['a]; CONTINUE END]; WriteChar['d]; END; A[];";

const USAGE: &str = "usage: mesa compile, bind, list, run, go or exercise\n";

const WITHOUT_A_FORM: [&str; 22] = [
    "",
    "go",
    "go M.mesa",
    "go M.mesa 01",
    "go M.mesa +1",
    "go M.mesa 18446744073709551616",
    "go M.mesa 1 1",
    "go M 1",
    "go .mesa 1",
    "go 1M.mesa 1",
    "Go M.mesa 1",
    "go A2345678901234567890123456789012345678901234567890123456789012345.mesa 1",
    "list M.mesa",
    "upgrade M.mesa",
    "exercise 0 1",
    "plan",
    "plan M M",
    "plan M.mesa",
    "compile",
    "compile M.mesa",
    "bind M 1",
    "run M",
];

/// Whether none of these words have a form.
fn are_no_forms(rt: &HostRuntime, all_words: &[&str]) -> Result<bool, OutOfMemory> {
    for words in all_words {
        let left = left_by(rt, words, NOTHING)?;
        if !is_left(&left, 10, "", USAGE) {
            return Ok(false);
        }
    }
    Ok(true)
}

#[test]
fn words_without_a_form(rt: HostRuntime) -> Result<(), Fail> {
    assert!(rt; are_no_forms(&rt, &WITHOUT_A_FORM)?);
    Ok(())
}

fn is_absent(rt: &HostRuntime, name: &str) -> Result<bool, Fail> {
    let words = format!(in rt.alloc(); "go {name} 1")?;
    let err = format!(in rt.alloc(); "{name}: absent\n")?;
    let left = left_by(rt, words.as_str(), NOTHING)?;
    Ok(is_left(&left, 5, "", err.as_str()))
}

#[test]
fn files_that_are_not_there(rt: HostRuntime) -> Result<(), Fail> {
    let name = "A234567890123456789012345678901234567890123456789012345678901-_z.mesa";
    assert!(rt; is_absent(&rt, name)?);
    Ok(())
}

const FILES: &[&str] = &["M.mesa", "M.mob", "M.mim"];

/// The request that runs one module.
fn go<'a>(bytes: &'a str, printed: &'a str) -> Request<'a> {
    Request {
        words: "go M.mesa 18",
        bytes,
        files: FILES,
        reads: 1,
        printed,
    }
}

/// The text of the module with this inside, with the files that `go` makes of it.
fn whole_of(rt: &HostRuntime, inside: &str) -> Result<MemoryFolder, Fail> {
    let text = module_with(rt.alloc(), inside)?;
    let mut folder = folder_with(rt.alloc(), text.as_str())?;
    left_on(rt, &mut folder, go("", "").words, "")?;
    Ok(folder)
}

/// Whether this is left of the line where `out` fails, and `err` as well.
fn line_fails_too(rt: &HostRuntime, whole: &mut MemoryFolder) -> Result<bool, OutOfMemory> {
    let made = Call {
        out: &[0],
        err: &[0],
        ..made_call("go M.mesa 18", "")
    };
    let left = called(rt.alloc(), whole, &made)?;
    Ok(is_left(&left, 7, "", "output "))
}

#[test]
fn calls_that_fail(rt: HostRuntime) -> Result<(), Fail> {
    let mut whole = whole_of(&rt, COUNT)?;
    assert!(rt; folder_fails_in_turn(&rt, &whole, &go("0", "321x"))?);
    assert!(rt; line_fails_too(&rt, &mut whole)?);
    Ok(())
}

/// Whether each call on the stream ends the run of the module where it fails.
fn is_cut_in_turn(
    rt: &HostRuntime,
    inside: &str,
    request: &Request<'_>,
    stream: Stream,
    outputs: &[&str],
) -> Result<bool, Fail> {
    let whole = whole_of(rt, inside)?;
    stream_fails_in_turn(rt, &whole, request, stream, outputs)
}

/// Each write of a run that unwinds fails in turn: what was written before is there.
#[test]
fn writes_that_fail(rt: HostRuntime) -> Result<(), Fail> {
    let before = ["", "a", "ac", "acb"];
    assert!(rt; is_cut_in_turn(&rt, UNWINDING, &go("", "acbd"), Stream::Out, &before)?);
    Ok(())
}

/// Each read of a run fails in turn, the one that finds the end of the input too.
#[test]
fn reads_that_fail(rt: HostRuntime) -> Result<(), Fail> {
    assert!(rt; is_cut_in_turn(&rt, SUM, &go("12345", "15"), Stream::Input, &[""; 6])?);
    Ok(())
}
