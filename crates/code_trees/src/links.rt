//! The imports of a module, with the tables that give its links their numbers.
ghost use Rattle.std.specs.Prelude.{◌≡◌};
ghost use Rattle.code_trees.specs.LinkTables.{count_links, tables_from};

use crate::link_table::LinkTable;
use mesa_base::List;
use mesa_types::Imports;

/// What a module imports, with tables by which the number of each link is one look-up.
#[derive(Drop)]
pub struct Links<'a> {
    pub imports: &'a Imports,
    pub tables: List<LinkTable>,
    pub count: u32,
    pub ghost tables_are: { tables ≡ tables_from 0 imports.now },
    pub ghost count_is: { count ≡ count_links imports.now },
}
