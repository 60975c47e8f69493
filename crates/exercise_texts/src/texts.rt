//! The texts that are the same for each number of links.

/// StepDefs.mif: the letters and the version; the name, the stamp and one item; a procedure with a parameter and a result; no constant and no type.
pub(crate) const STEP_DEFS: &[u8] = b"MIF\x02\x08StepDefs\0\0\0\0\0\xAA\0\0\0\x01\
    \x01\x04Step\0\0\0\x01\x01n\x01\0\0\0\x01\0\x01\0\0\0\0\0\0\0\0";

/// SigDefs.mif: the same with a signal.
pub(crate) const SIG_DEFS: &[u8] = b"MIF\x02\x07SigDefs\0\0\0\0\0\xAB\0\0\0\x01\
    \x02\x03Odd\0\0\0\x01\x01n\x01\0\0\0\x01\0\x01\0\0\0\0\0\0\0\0";

/// Link.mesa.
pub(crate) const LINK: &str = "DIRECTORY StepDefs: FROM \"StepDefs\";\n\
    Link: PROGRAM IMPORTS StepDefs EXPORTS StepDefs = BEGIN\n\
    Step: PUBLIC PROCEDURE [n: INTEGER] RETURNS [INTEGER] =\n\
    BEGIN RETURN[StepDefs.Step[n + 1]]; END;\n\
    END.\n";

/// Last.mesa.
pub(crate) const LAST: &str = "DIRECTORY StepDefs: FROM \"StepDefs\", SigDefs: FROM \"SigDefs\";\n\
    Last: PROGRAM EXPORTS StepDefs, SigDefs = BEGIN\n\
    Odd: PUBLIC SIGNAL [n: INTEGER] RETURNS [INTEGER] = CODE;\n\
    Step: PUBLIC PROCEDURE [n: INTEGER] RETURNS [INTEGER] =\n\
    BEGIN IF n MOD 2 = 1 THEN RETURN[SIGNAL Odd[n]]; RETURN[n]; END;\n\
    END.\n";

/// Main.mesa.
pub(crate) const MAIN: &str = "DIRECTORY StepDefs: FROM \"StepDefs\", SigDefs: FROM \"SigDefs\",\n\
    IODefs: FROM \"IODefs\";\n\
    Main: PROGRAM IMPORTS StepDefs, SigDefs, IODefs = BEGIN\n\
    IODefs.WriteDecimal[StepDefs.Step[0 ! SigDefs.Odd => RESUME[n + n]]];\n\
    IODefs.WriteChar[12C];\n\
    END.\n";

/// What stands before the links in Chain.config.
pub(crate) const CHAIN_HEAD: &str = "Chain: CONFIGURATION IMPORTS IODefs CONTROL Main = BEGIN\n";

/// What stands behind the number of Last's record.
pub(crate) const CHAIN_TAIL: &str = ", SigDefs] _ Last;\nMain[r1, SigDefs, IODefs];\nEND.\n";
