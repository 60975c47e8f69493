//! What is so of the modules and the interfaces that come of files.

ghost use Rattle.command_sources.specs.Laws.{DefinitionsCanBeWritten, ModulesOfFilesCanBeKept};

use command_passes::checked_texts::{defined_interfaces_can_be_spelled, read_modules_can_be_kept};
use spelled_laws::{built_in_fits, interfaces_fit};

/// A law: the modules of components, as they come of their files, can be kept, and are as many.
pub fn modules_of_files_can_be_kept()
    ensures { ModulesOfFilesCanBeKept }
{
    built_in_fits();
    interfaces_fit();
    read_modules_can_be_kept();
}

/// A law: the interface of definitions under a stamp, as it comes of a file, can be written to one.
pub fn definitions_can_be_written()
    ensures { DefinitionsCanBeWritten }
{
    built_in_fits();
    interfaces_fit();
    defined_interfaces_can_be_spelled();
}
