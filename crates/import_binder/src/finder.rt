//! Where an import is looked up.

ghost use Rattle.std.specs.Prelude.{◌≡◌, Some, suc};
ghost use Rattle.config_rules.specs.Resolves.{looked_up, source};
ghost use Rattle.config_tree.specs.Outward.{imported, outsides, shown};
ghost use Rattle.import_binder.specs.Places.{spot_at, place_shown};

use config_rules::Tree;
use config_tree::{Onward, OutsideRecords, step_outward};
use mesa_base::Name;

/// A record of a scope.
#[derive(Clone, Copy)]
pub struct Place<'a> {
    pub scope: u32,
    pub record_name: &'a Name,
}

// While the scope imports the record, outward; None past the outermost scope.
fn source<'a>(
    tree: &Tree,
    records: &'a OutsideRecords,
    most: u64,
    scope: u32,
    record_name: &'a Name,
) -> Option<Place<'a>>
    requires { shown records.now ≡ outsides imported tree.now }
    ensures { place_shown result ≡ source most tree.now (spot_at scope record_name.now) }
{
    if most == 0 {
        return Some(Place { scope, record_name });
    }
    match step_outward(tree, records, scope, record_name) {
        Onward::Stays => Some(Place { scope, record_name }),
        Onward::Goes(around, outside) => source(tree, records, most - 1, around, outside),
        Onward::Leaves => None,
    }
}

/// Where an import of the record of a scope is looked up: None past the outermost scope.
pub fn looked_up<'a>(
    tree: &Tree,
    records: &'a OutsideRecords,
    scope: u32,
    record_name: &'a Name,
) -> Option<Place<'a>>
    requires { shown records.now ≡ outsides imported tree.now }
    ensures { place_shown result ≡ looked_up tree.now (spot_at scope record_name.now) }
{
    source(tree, records, scope as u64 + 1, scope, record_name)
}
