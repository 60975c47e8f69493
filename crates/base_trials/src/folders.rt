//! Folders: in memory, and a real one.

use mesa_base::{DirFolder, Folder, FolderError, MemoryFolder, Numbers};
use std::alloc::Global;
use std::fs;
use std::test::Fail;

/// Whether a read gives these bytes, of which two and one more are asked for.
fn reads<F: Folder>(alloc: Global, folder: &mut F, name: &str, wanted: &[u8]) -> bool {
    match folder.read(alloc, name, 2) {
        Ok(bytes) => bytes.as_slice() == wanted,
        Err(_) => false,
    }
}

fn lacks<F: Folder>(alloc: Global, folder: &mut F, name: &str) -> bool {
    matches!(folder.read(alloc, name, 2), Err(FolderError::Absent))
}

fn fails<F: Folder>(alloc: Global, folder: &mut F, name: &str) -> bool {
    matches!(folder.read(alloc, name, 2), Err(FolderError::Failed))
}

fn folder_in_memory(alloc: Global) -> Result<bool, Fail> {
    let mut folder = MemoryFolder::new(alloc, Numbers::from_slice(alloc, &[1, 4])?);
    folder.insert("One.mesa", b"first")?;
    folder.insert("One.mesa", b"text")?;
    let is_written = folder.write(alloc, "Two.mob", b"ab345").is_ok();
    let is_cut = matches!(
        folder.write(alloc, "Two.mob", b"ab345"),
        Err(FolderError::Failed)
    );
    let is_read = is_written && is_cut && reads(alloc, &mut folder, "One.mesa", b"tex");
    let is_missed = is_read
        && lacks(alloc, &mut folder, "Two.mesa")
        && fails(alloc, &mut folder, "Two.mesa");
    Ok(is_missed && folder.get("Two.mob") == Some(b"ab".as_slice()))
}

#[test]
fn folders_in_memory(rt: HostRuntime) -> Result<(), Fail> {
    assert!(rt; folder_in_memory(rt.alloc())?);
    Ok(())
}

#[test]
fn files(rt: HostRuntime) -> Result<(), Fail> {
    let alloc = rt.alloc();
    let mut folder = DirFolder::new(rt);
    assert!(rt;
        folder
            .write(alloc, "base_trials_files.tmp", b"longer")
            .is_ok()
    );
    assert!(rt;
        folder
            .write(alloc, "base_trials_files.tmp", b"text")
            .is_ok()
    );
    assert!(rt; reads(alloc, &mut folder, "base_trials_files.tmp", b"tex"));
    fs::remove_file(&rt, "base_trials_files.tmp")?;
    assert!(rt;
        lacks(alloc, &mut folder, "base_trials_files.tmp") && fails(alloc, &mut folder, ".")
    );
    Ok(())
}
