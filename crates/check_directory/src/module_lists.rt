//! All that names interfaces before a module's body.
ghost use Rattle.std.specs.Prelude.{map};
ghost use Rattle.check_state.specs.Gives.{GivesOnly};
ghost use Rattle.check_rules.specs.CheckedModule as spec;
ghost use Rattle.interface_records.specs.PlainTypes.{plain_interface};
ghost use Rattle.syntax_trees.specs.PlainSyntax as plain;

use crate::directories::directory;
use crate::lists::listed;
use check_rules::CheckFault;
use interface_records::Interface;
use mesa_base::Identifier;
use std::alloc::Global;
use syntax_trees::Module;

/// The DIRECTORY of a module with the interfaces that are given for it, then its IMPORTS, EXPORTS and OPEN.
pub fn all_listed(
    module: &Module,
    alloc: Global,
    interfaces: &[Interface],
    imports: &[Identifier],
    exports: &[Identifier],
    opens: &[Identifier],
) -> Result<(), CheckFault>
    ensures { GivesOnly (λ _. tt) (spec.lists (plain.syntax module.now) (map plain_interface interfaces.now) imports.now exports.now opens.now) result }
{
    let items = module.directory.as_slice();
    directory(items, alloc, interfaces)?;
    listed(imports, alloc, items)?;
    listed(exports, alloc, items)?;
    listed(opens, alloc, items)
}
