//! How records go outward from a scope, by an ordered index of its pairs.

ghost use Rattle.std.specs.Prelude.{◌≡◌, Some, IfOk};
ghost use Rattle.check_scopes.specs.Shows.{listed};
ghost use Rattle.config_rules.specs.Exporters.{outside_of, stepped};
ghost use Rattle.config_tree.specs.Outward.{exported, imported, outsides, shown, step_shown, step_among};

use check_scopes::Index;
use config_rules::{RecordPair, Tree, TreeScope};
use mesa_base::{List, Name, OutOfMemory};
use std::alloc::Global;

/// For each scope of a tree its records, each with the one that stands for it in the scope around: a look-up among n records
/// takes log n steps.
pub type OutsideRecords = List<Index<Name>>;

/// Where a record of a scope goes: nowhere, since the list of the scope does not have it; to a record of the scope around; or
/// past the outermost scope.
pub enum Onward<'a> {
    Stays,
    Goes(u32, &'a Name),
    Leaves,
}

// The first pair of a record counts.
fn pairs_index(alloc: Global, pairs: &[RecordPair]) -> Result<Index<Name>, OutOfMemory>
    ensures { IfOk result (λ index. listed index ≡ outside_of pairs.now) }
{
    let mut index = Index::new(alloc);
    for pair in pairs {
        let outside = pair.outside.copy(alloc)?;
        index.declare_first(alloc, pair.inside.bytes(), outside)?;
    }
    Ok(index)
}

/// The records that the scopes export, with those that stand for them around.
pub fn export_records(alloc: Global, tree: &Tree) -> Result<OutsideRecords, OutOfMemory>
    ensures { IfOk result (λ records. shown records ≡ outsides exported tree.now) }
{
    let mut records = List::new(alloc);
    for scope in tree.scopes.as_slice() {
        let index = pairs_index(alloc, scope.exports.as_slice())?;
        records.push(index)?;
    }
    Ok(records)
}

/// The records that the scopes import, with those that stand for them around.
pub fn import_records(alloc: Global, tree: &Tree) -> Result<OutsideRecords, OutOfMemory>
    ensures { IfOk result (λ records. shown records ≡ outsides imported tree.now) }
{
    let mut records = List::new(alloc);
    for scope in tree.scopes.as_slice() {
        let index = pairs_index(alloc, scope.imports.as_slice())?;
        records.push(index)?;
    }
    Ok(records)
}

#[tactic(auto, unfolding(crate::specs::Outward::step_shown, config_rules::specs::Exporters::stepped))]
fn out_of<'a>(scope: &TreeScope, outside: &'a Name) -> Onward<'a>
    ensures { step_shown result ≡ stepped scope.now.around (Some outside.now) }
{
    match scope.around {
        Some(around) => Onward::Goes(around, outside),
        None => Onward::Leaves,
    }
}

/// One step outward from a record of a scope, by these lists of the scopes.
pub fn step_outward<'a>(
    tree: &Tree,
    records: &'a OutsideRecords,
    scope: u32,
    record_name: &Name,
) -> Onward<'a>
    ensures { step_shown result ≡ step_among (shown records.now) tree.now (record { scope = scope; record_name = record_name.now }) }
{
    let Some(here) = tree.scopes.get(scope as usize) else {
        return Onward::Stays;
    };
    let Some(index) = records.get(scope as usize) else {
        return Onward::Stays;
    };
    match index.get(record_name.bytes()) {
        Some(outside) => out_of(here, outside),
        None => Onward::Stays,
    }
}
