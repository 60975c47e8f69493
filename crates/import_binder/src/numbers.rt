//! The procedure or signal that an export gives for an item.

ghost use Rattle.std.specs.Prelude.{◌≡◌, Contains, IfSome, slice_get};
ghost use Rattle.config_rules.specs.Exporters.{is_named};
ghost use Rattle.config_rules.specs.Resolves.{given_for};
ghost use Rattle.import_binder.specs.InOrder.{ExportInOrder};

use mesa_base::Name;
use mesa_types::{Export, Face, Pair};

#[tactic(auto, unfolding(config_rules::specs::Exporters::is_named))]
fn is_named(face: &Face, number: u32, name: &Name) -> bool
    ensures { result ≡ is_named name.now (slice_get face.now.items number) }
{
    match face.items.get(number as usize) {
        Some(item) => item.name.bytes() == name.bytes(),
        None => false,
    }
}

// The pair of the item, in pairs by ascending item.
fn pair_of(pairs: &[Pair], item: u32) -> Option<Pair>
    ensures { IfSome result (λ pair. (pair.item ≡ item) × Contains pairs.now pair) }
{
    match pairs.binary_search_by_key(&item, |pair| pair.item) {
        Ok(at) => Some(pairs[at]),
        Err(_) => None,
    }
}

// What is given for the item of this number, if it has the name.
fn given_at(export: &Export, number: u32, name: &Name) -> Option<u32>
    requires { ExportInOrder export.now }
    ensures { IfSome result (λ given. given ≡ given_for name.now export.now.face export.now.given) }
{
    if is_named(&export.face, number, name) {
        return match pair_of(export.given.as_slice(), number) {
            Some(pair) => Some(pair.number),
            None => None,
        };
    }
    None
}

fn first_given(export: &Export, name: &Name) -> u32
    ensures { result ≡ given_for name.now export.now.face export.now.given }
{
    for pair in export.given.as_slice() {
        if is_named(&export.face, pair.item, name) {
            return pair.number;
        }
    }
    0
}

/// What the export gives for the item of this name. The number is that of the item in the interface that is imported: where the export
/// has the very same interface, it is found in log n steps.
pub fn given_for(export: &Export, number: u32, name: &Name) -> u32
    requires { ExportInOrder export.now }
    ensures { result ≡ given_for name.now export.now.face export.now.given }
{
    match given_at(export, number, name) {
        Some(given) => given,
        None => first_given(export, name),
    }
}
