//! Indexes over one another: what the newer one says hides what the older one says.
ghost use Rattle.std.specs.Prelude.{◌≡◌, IfOk, OnOk};
ghost use Rattle.std.specs.Option.{option_copied};
ghost use Rattle.check_scopes.specs.Scopes.{over};
ghost use Rattle.check_scopes.specs.Shows.{layered, valued};

use crate::index::Index;
use mesa_base::{OutOfMemory, Shared};
use std::alloc::Global;
use std::rc::Rc;

type Layer<T> = Shared<Index<Rc<T>>>;

/// What the name means in the newest of these that has it.
pub fn found<'a, T>(mut layers: &'a [Layer<T>], name: &[u8]) -> Option<&'a T>
    ensures { option_copied result ≡ layered layers.entry.now name.now }
{
    while let Some((layer, older)) = layers.split_last() {
        if let Some(meaning) = layer.get().get(name) {
            return Some(meaning);
        }
        layers = older;
    }
    None
}

fn joined<T: Drop>(older: &Index<Rc<T>>, newer: &Index<Rc<T>>) -> Result<Index<Rc<T>>, OutOfMemory>
    ensures { IfOk result (λ both. valued both ≡ over (valued newer.now) (valued older.now)) }
{
    let mut both = older.copied()?;
    both.declare_all(newer.copied()?)?;
    Ok(both)
}

/// Joins the newest ones until each is less than half as large as the one before it: so there are but log n of them, and a name is
/// copied but log n times.
pub fn merge<T: Drop>(alloc: Global, layers: &mut Vec<Layer<T>>) -> Result<(), OutOfMemory>
    ensures { OnOk result (layered layers.new.items ≡ layered layers.old.items) }
{
    while let Some(newer) = layers.pop() {
        let Some(older) = layers.pop() else {
            layers.push(newer)?;
            return Ok(());
        };
        if older.get().len() / 2 > newer.get().len() {
            layers.push(older)?;
            layers.push(newer)?;
            return Ok(());
        }
        let both = joined(older.get(), newer.get())?;
        layers.push(Shared::new(alloc, both)?)?;
    }
    Ok(())
}

/// All in one, with these names the newest.
pub fn joined_all<T: Drop>(
    mut layers: &[Layer<T>],
    newest: Index<Rc<T>>,
) -> Result<Index<Rc<T>>, OutOfMemory>
    ensures { IfOk result (λ all. valued all ≡ over (valued newest) (layered layers.entry.now)) }
{
    let mut all = newest;
    while let Some((layer, older)) = layers.split_last() {
        let mut both = layer.get().copied()?;
        both.declare_all(all)?;
        all = both;
        layers = older;
    }
    Ok(all)
}

/// One owner more of each.
pub fn shared_all<T: Drop>(
    alloc: Global,
    parts: &[Shared<T>],
) -> Result<Vec<Shared<T>>, OutOfMemory>
    ensures { IfOk result (λ shared. shared.items ≡ parts.now) }
{
    let mut shared = Vec::new(alloc);
    for part in parts {
        shared.push(part.share()?)?;
    }
    Ok(shared)
}
