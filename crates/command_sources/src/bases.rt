//! The bases of the files of modules.

ghost use Rattle.std.specs.Prelude.{◌≡◌, [], ◌∷◌, map, IfOk};

use config_rules::Component;
use mesa_base::{List, OutOfMemory, Texts};
use std::alloc::Global;

/// The bases of the files of the components, in order.
pub fn bases_of(alloc: Global, components: &[Component]) -> Result<Texts, OutOfMemory>
    ensures { IfOk result (λ bases. bases ≡ map (λ c. c.file) components.now) }
{
    let mut bases = List::new(alloc);
    for component in components {
        bases.push(List::from_slice(alloc, component.file.as_slice())?)?;
    }
    Ok(bases)
}

/// This base alone.
pub fn one_base(alloc: Global, base: &[u8]) -> Result<Texts, OutOfMemory>
    ensures { IfOk result (λ bases. bases ≡ base.now ∷ []) }
{
    List::of(alloc, List::from_slice(alloc, base)?)
}
