//! What is known of a module before what stands in it is read.
ghost use Rattle.std.specs.Prelude.{◌≡◌, [], map, IfOk};
ghost use Rattle.check_state.specs.Views as view;
ghost use Rattle.check_mentions.specs.check_rules.specs.CheckedModule as spec;
ghost use Rattle.check_mentions.specs.check_rules.specs.Mentions.{of_kind, texts};
ghost use Rattle.interface_records.specs.PlainTypes.{plain_interface};
ghost use Rattle.syntax_trees.specs.PlainSyntax.{kind, syntax};

use check_directory::offered;
use check_mentions::{Mentions, mentions_of};
use check_state::{Known, Origins, Strings};
use interface_records::Interface;
use mesa_base::{Identifier, OutOfMemory, Stamp};
use std::alloc::Global;
use syntax_trees::Module;

/// What is known of a module with these IMPORTS, whose DIRECTORY names these interfaces. Its text is gone through once.
#[tactic(auto, unfolding(check_state::specs::Views::known))]
pub fn known_of(
    module: &Module,
    alloc: Global,
    stamp: Option<Stamp>,
    is_program: bool,
    imports: &[Identifier],
    interfaces: &[Interface],
) -> Result<Known, OutOfMemory>
    ensures known { IfOk result (λ known. view.known known ≡ spec.known_of (syntax «module».now) stamp is_program imports.now (map plain_interface interfaces.now)) }
    ensures strings { IfOk result (λ known. known.strings ≡ texts [] (of_kind (kind «module».now.kind))) }
{
    let Mentions { texts, origins } = mentions_of(alloc, &module.kind)?;
    Ok(Known {
        name: module.name.name.copy(alloc)?,
        stamp,
        is_program,
        strings: Strings::of(alloc, texts)?,
        origins: Origins::of(alloc, origins)?,
        interfaces: offered(imports, alloc, module.directory.as_slice(), interfaces)?,
    })
}
