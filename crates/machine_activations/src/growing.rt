//! The region grows as deeper activations are entered.

ghost use Rattle.std.specs.Prelude.{◌≡◌, ◌<◌, ◌≤◌, vec_capacity};
ghost use Rattle.mesa_base.specs.declared.limits.TheConstants.{ACTIVATIONS};
ghost use Rattle.machine_activations.specs.Shows.{IsReserved, with_places};

use crate::row::Layout;

/// The region has the parts of all places up to this one: words that it had not are 0. There is memory for them, so none
/// is taken.
#[inline(always)]
pub fn make_room(region: &mut Vec<u16>, layout: Layout, place: usize)
    requires reserved { IsReserved layout (vec_capacity region.old) }
    requires place { place < ACTIVATIONS }
    ensures words { region.new.items ≡ with_places region.old.items layout place }
    ensures reserved { vec_capacity region.old ≤ vec_capacity region.new }
{
    let words = (place + 1) * layout.part;
    if region.len() < words {
        region.resize(words, 0).unwrap();
    }
}
