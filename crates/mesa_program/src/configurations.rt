//! A configuration that runs, and items that are bad: nothing is written then.
use crate::demo::{BOTH, DEFINE, OUTPUT, leaves, texts_with};
use mesa_base::{MemoryFolder, OutOfMemory};
use std::test::Fail;

/// Whether no file is there that `go` writes.
fn is_unwritten(folder: &MemoryFolder) -> bool {
    ["Server.mob", "Main.mob", "Main.mim", "Demo.mim"]
        .iter()
        .all(|name| folder.get(name).is_none())
}

/// Whether it is done where its interface is compiled, and else nothing is written.
fn runs_with_its_interface(rt: &HostRuntime) -> Result<bool, OutOfMemory> {
    let words = "go Demo.config 22";
    let mut folder = texts_with(rt.alloc(), BOTH)?;
    Ok(
        leaves(rt, &mut folder, words, 5, "", "AskDefs.mif: absent\n")?
            && is_unwritten(&folder)
            && leaves(rt, &mut folder, DEFINE, 0, "", "")?
            && leaves(rt, &mut folder, words, 0, OUTPUT, "")?,
    )
}

#[test]
fn caught_in_another_module(rt: HostRuntime) -> Result<(), Fail> {
    assert!(rt; runs_with_its_interface(&rt)?);
    Ok(())
}

/// Whether the words are refused with this line where the configuration has this text, and nothing is written.
fn is_refused(
    rt: &HostRuntime,
    config: &str,
    words: &str,
    line: &str,
) -> Result<bool, OutOfMemory> {
    let mut folder = texts_with(rt.alloc(), config)?;
    Ok(
        leaves(rt, &mut folder, DEFINE, 0, "", "")?
            && leaves(rt, &mut folder, words, 4, "", line)?
            && is_unwritten(&folder),
    )
}

#[test]
fn items_that_are_bad(rt: HostRuntime) -> Result<(), Fail> {
    assert!(rt;
        is_refused(
            &rt,
            "Demo: CONFIGURATION IMPORTS IODefs CONTROL Main = BEGIN Main; END.",
            "go Demo.config 22",
            "Demo.config: NoExporter Main AskDefs.Ask\n"
        )?
    );
    assert!(rt;
        is_refused(
            &rt,
            "Demo: CONFIGURATION IMPORTS IODefs, AskDefs CONTROL Main = BEGIN Main; END.",
            "go Demo.config 22",
            "Demo.mim: Unresolved AskDefs.Ask 00000000000A\n"
        )?
    );
    assert!(rt;
        is_refused(
            &rt,
            BOTH,
            "go Main.mesa 22",
            "Main.mesa: NoExporter Main AskDefs.Ask\n"
        )?
    );
    Ok(())
}
