//! Objects: their imports, code and exports.
ghost use Rattle.std.specs.Prelude.{◌≡◌, ◌++◌, flat_map, OnOk};
ghost use Rattle.listing_rules.specs.Objects as spec;

use crate::code::put_code;
use crate::lines::{Word, put_line};
use crate::texts::{Listed, put_each};
use mesa_base::{Bytes, Name, OutOfMemory};
use mesa_types::{Export, Face, Import, Items, Pair};
use object_files::Object;

fn put_face(out: &mut Bytes, word: &str, face: &Face) -> Result<(), OutOfMemory>
    ensures { OnOk result (out.new ≡ out.old ++ spec.face_line word.now face.now) }
{
    put_line(
        out,
        &Word::Text(word),
        &[Word::Name(&face.name), Word::Stamp(&face.stamp)],
    )
}

fn put_use(out: &mut Bytes, items: &Items, number: u32) -> Result<(), OutOfMemory>
    ensures { OnOk result (out.new ≡ out.old ++ spec.use_line items.now number) }
{
    put_line(out, &Word::Text("USES"), &[Word::ItemAt(items, number)])
}

fn put_uses(out: &mut Bytes, items: &Items, used: &[u32]) -> Result<(), OutOfMemory>
    ensures { OnOk result (out.new ≡ out.old ++ flat_map (spec.use_line items.now) used.now) }
{
    'used: for number in used {
        put_use(out, items, *number)?;
    }
    Ok(())
}

impl Listed for Import {
    ghost use Rattle.listing_rules.specs.Objects.{import_lines};

    ghost text = { import_lines };

    fn put(&self, out: &mut Bytes) -> Result<(), OutOfMemory> {
        put_face(out, "IMPORT", &self.face)?;
        put_uses(out, &self.face.items, self.used.as_slice())
    }
}

fn put_pair(out: &mut Bytes, items: &Items, pair: Pair) -> Result<(), OutOfMemory>
    ensures { OnOk result (out.new ≡ out.old ++ spec.pair_line items.now pair) }
{
    put_line(
        out,
        &Word::Text("GIVES"),
        &[
            Word::ItemAt(items, pair.item),
            Word::Number(pair.number as u64),
        ],
    )
}

fn put_pairs(out: &mut Bytes, items: &Items, pairs: &[Pair]) -> Result<(), OutOfMemory>
    ensures { OnOk result (out.new ≡ out.old ++ flat_map (spec.pair_line items.now) pairs.now) }
{
    'pairs: for pair in pairs {
        put_pair(out, items, *pair)?;
    }
    Ok(())
}

impl Listed for Export {
    ghost use Rattle.listing_rules.specs.Objects.{export_lines};

    ghost text = { export_lines };

    fn put(&self, out: &mut Bytes) -> Result<(), OutOfMemory> {
        put_face(out, "EXPORT", &self.face)?;
        put_pairs(out, &self.face.items, self.given.as_slice())
    }
}

fn put_head(out: &mut Bytes, name: &Name) -> Result<(), OutOfMemory>
    ensures { OnOk result (out.new ≡ out.old ++ spec.object_line name.now) }
{
    put_line(out, &Word::Text("OBJECT"), &[Word::Name(name)])
}

impl Listed for Object {
    ghost use Rattle.listing_rules.specs.Objects.{object_listing};

    ghost text = { object_listing };

    fn put(&self, out: &mut Bytes) -> Result<(), OutOfMemory> {
        put_head(out, &self.shape.name)?;
        put_each(out, self.shape.imports.as_slice())?;
        put_code(out, self.code.code())?;
        put_each(out, self.shape.exports.as_slice())
    }
}

/// The listing of the object, behind what is there.
pub fn put_object(out: &mut Bytes, object: &Object) -> Result<(), OutOfMemory>
    ensures { OnOk result (out.new ≡ out.old ++ spec.object_listing object.now) }
{
    object.put(out)
}
