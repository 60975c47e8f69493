//! A configuration of two modules and an interface: a signal of the one is caught in the other, both print, and the other reads.
use crate::calls::{folder_failing, is_left, left_on};
use mesa_base::{MemoryFolder, OutOfMemory};
use std::alloc::Global;

const DEFINITIONS: &str = "AskDefs: DEFINITIONS = BEGIN \
    Ask: PROCEDURE [x: INTEGER] RETURNS [INTEGER]; S: SIGNAL [x: INTEGER] RETURNS [INTEGER]; END.";

const SERVER: &str = "DIRECTORY AskDefs: FROM \"AskDefs\", IODefs: FROM \"IODefs\"; \
    Server: PROGRAM IMPORTS IODefs EXPORTS AskDefs = BEGIN \
    S: PUBLIC SIGNAL [x: INTEGER] RETURNS [INTEGER] = CODE; \
    Ask: PUBLIC PROCEDURE [x: INTEGER] RETURNS [INTEGER] = BEGIN \
    r: INTEGER; r ← SIGNAL S[x]; IODefs.WriteDecimal[x]; RETURN[r]; END; END.";

const MAIN: &str = "DIRECTORY AskDefs: FROM \"AskDefs\", IODefs: FROM \"IODefs\"; \
    Main: PROGRAM IMPORTS AskDefs, IODefs = BEGIN \
    UNTIL IODefs.EndOfInput[] DO \
    IODefs.WriteDecimal[AskDefs.Ask[IODefs.ReadChar[] - '0 \
    ! AskDefs.S => BEGIN IODefs.WriteChar['s]; RESUME[x + 1] END]]; \
    ENDLOOP; IODefs.WriteChar['.]; END.";

pub const BOTH: &str = "Demo: CONFIGURATION IMPORTS IODefs CONTROL Main = BEGIN Server; Main; END.";

/// What it reads. It takes 22 turns for that: two starts, nine for each byte, the last call of EndOfInput and the last of WriteChar.
pub const INPUT: &str = "47";

/// What it prints for that.
pub const OUTPUT: &str = "s45s78.";

/// Compiles its interface.
pub const DEFINE: &str = "compile AskDefs 00000000000A";

/// The texts of a configuration with this text.
pub fn texts_with(alloc: Global, config: &str) -> Result<MemoryFolder, OutOfMemory> {
    let mut folder = folder_failing(alloc, &[])?;
    folder.insert("AskDefs.mesa", DEFINITIONS.as_bytes())?;
    folder.insert("Server.mesa", SERVER.as_bytes())?;
    folder.insert("Main.mesa", MAIN.as_bytes())?;
    folder.insert("Demo.config", config.as_bytes())?;
    Ok(folder)
}

/// Whether the words leave this on these files.
pub fn leaves(
    rt: &HostRuntime,
    folder: &mut MemoryFolder,
    words: &str,
    status: u8,
    printed: &str,
    said: &str,
) -> Result<bool, OutOfMemory> {
    let left = left_on(rt, folder, words, INPUT)?;
    Ok(is_left(&left, status, printed, said))
}
