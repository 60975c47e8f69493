//! Interfaces: a line for each item, each constant and each type.
ghost use Rattle.std.specs.Prelude.{◌≡◌, ◌++◌, OnOk};
ghost use Rattle.listing_rules.specs.Interfaces.{head_line, kind_line, interface_listing};

use crate::lines::{Word, put_line};
use crate::texts::{Listed, put_each};
use interface_records::{Constant, Interface, NamedType};
use mesa_base::{Bytes, OutOfMemory};
use mesa_types::{Face, Item, ItemKind};

fn put_item(out: &mut Bytes, kind: ItemKind, item: &Item) -> Result<(), OutOfMemory>
    ensures { OnOk result (out.new ≡ out.old ++ kind_line kind item.now.name item.now.takes item.now.gives) }
{
    match kind {
        ItemKind::Procedure => put_line(
            out,
            &Word::Text("PROCEDURE"),
            &[
                Word::Name(&item.name),
                Word::Fields(&item.takes),
                Word::Text("RETURNS"),
                Word::Fields(&item.gives),
            ],
        ),
        ItemKind::Signal => put_line(
            out,
            &Word::Text("SIGNAL"),
            &[
                Word::Name(&item.name),
                Word::Fields(&item.takes),
                Word::Text("RETURNS"),
                Word::Fields(&item.gives),
            ],
        ),
        ItemKind::Error => put_line(
            out,
            &Word::Text("ERROR"),
            &[Word::Name(&item.name), Word::Fields(&item.takes)],
        ),
    }
}

impl Listed for Item {
    ghost use Rattle.listing_rules.specs.Interfaces.{item_line};

    ghost text = { item_line };

    fn put(&self, out: &mut Bytes) -> Result<(), OutOfMemory> {
        put_item(out, self.kind, self)
    }
}

impl Listed for Constant {
    ghost use Rattle.listing_rules.specs.Interfaces.{constant_line};

    ghost text = { constant_line };

    fn put(&self, out: &mut Bytes) -> Result<(), OutOfMemory> {
        put_line(
            out,
            &Word::Text("CONSTANT"),
            &[
                Word::Name(&self.name),
                Word::Type(&self.kind),
                Word::ValueOf(self),
            ],
        )
    }
}

impl Listed for NamedType {
    ghost use Rattle.listing_rules.specs.Interfaces.{type_line};

    ghost text = { type_line };

    fn put(&self, out: &mut Bytes) -> Result<(), OutOfMemory> {
        put_line(
            out,
            &Word::Text("TYPE"),
            &[Word::Name(&self.name), Word::Type(&self.kind)],
        )
    }
}

fn put_head(out: &mut Bytes, face: &Face) -> Result<(), OutOfMemory>
    ensures { OnOk result (out.new ≡ out.old ++ head_line face.now.name face.now.stamp) }
{
    put_line(
        out,
        &Word::Text("INTERFACE"),
        &[Word::Name(&face.name), Word::Stamp(&face.stamp)],
    )
}

/// The listing of the interface, behind what is there.
pub fn put_interface(out: &mut Bytes, interface: &Interface) -> Result<(), OutOfMemory>
    ensures { OnOk result (out.new ≡ out.old ++ interface_listing interface.now) }
{
    put_head(out, &interface.face)?;
    put_each(out, interface.face.items.as_slice())?;
    put_each(out, interface.constants.as_slice())?;
    put_each(out, interface.types.as_slice())
}
