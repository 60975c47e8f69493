//! To what links are bound.

ghost use Rattle.std.specs.Prelude.{◌≡◌, ◌↔◌, IsTrue, Some};
ghost use Rattle.machine_rules.specs.LookUps.{ReadChar, bound_to, host_named, host_of};

use object_files::{Image, Link};

/// To what a link of an instance is bound.
#[tactic(auto, unfolding(machine_rules::specs::LookUps::bound_to))]
pub fn bound_to(image: &Image, instance: u32, link: u32) -> Option<Link>
    ensures { result ≡ bound_to image.now instance link }
{
    match image.links.get(instance as usize) {
        Some(table) => table.get(link as usize).copied(),
        None => None,
    }
}

fn is_read_char(name: &[u8]) -> bool
    ensures { IsTrue result ↔ (host_named name.now ≡ Some ReadChar) }
{
    name == b"ReadChar".as_slice()
}

/// Whether a wanted item is the host's ReadChar.
#[tactic(auto, unfolding(machine_rules::specs::LookUps::host_of))]
pub fn reads(image: &Image, wanted: u32) -> bool
    ensures { IsTrue result ↔ (host_of image.now wanted ≡ Some ReadChar) }
{
    match image.wanted.get(wanted as usize) {
        Some(entry) => is_read_char(entry.item.name.bytes()),
        None => false,
    }
}
