//! Images as bytes.
ghost use Rattle.std.specs.Prelude.{◌≡◌, OnOk};
ghost use Rattle.file_forms.specs.Written.{appended};
ghost use Rattle.object_writers.specs.ObjectBytes.{ImageFits, image_bytes};

use crate::put::{Put, put_each, put_list};
use file_forms::FileWriter;
use interface_records::Wanted;
use interface_writers::put_item;
use mesa_base::{Name, OutOfMemory};
use object_files::{Image, Instance, Link, LinkTable, Offer};

impl Put for Wanted {
    ghost use Rattle.object_writers.specs.ObjectBytes.{EntryFits, entry_bytes};

    ghost can_put = { EntryFits };

    ghost spelling = { entry_bytes };

    #[tactic(auto, using(file_forms::proofs::WrittenLaws::appended_twice))]
    fn put(&self, out: &mut FileWriter) -> Result<(), OutOfMemory> {
        out.name(&self.face)?;
        out.stamp(self.stamp)?;
        put_item(out, &self.item)
    }
}

impl Put for Name {
    ghost use Rattle.file_forms.specs.Names.{name};

    ghost can_put = { λ x. name.fits x };

    ghost spelling = { λ x. name.spell x };

    fn put(&self, out: &mut FileWriter) -> Result<(), OutOfMemory> {
        out.name(self)
    }
}

impl Put for Instance {
    ghost use Rattle.object_writers.specs.ObjectBytes.{InstanceFits, instance_bytes};

    ghost can_put = { InstanceFits };

    ghost spelling = { instance_bytes };

    #[tactic(auto, using(file_forms::proofs::WrittenLaws::appended_twice))]
    fn put(&self, out: &mut FileWriter) -> Result<(), OutOfMemory> {
        out.u8(self.path.len() as u8)?;
        put_each(out, self.path.as_slice())?;
        out.u32(self.module)
    }
}

impl Put for Link {
    ghost use Rattle.object_writers.specs.ObjectBytes.{link_bytes};

    ghost can_put = { λ link. Unit {0} };

    ghost spelling = { link_bytes };

    #[tactic(auto, using(file_forms::proofs::WrittenLaws::appended_twice))]
    fn put(&self, out: &mut FileWriter) -> Result<(), OutOfMemory> {
        match *self {
            Link::Wanted(entry) => {
                out.u8(1)?;
                out.u32(entry)
            }
            Link::To { instance, number } => {
                out.u8(2)?;
                out.u32(instance)?;
                out.u32(number)
            }
        }
    }
}

impl Put for LinkTable {
    ghost use Rattle.object_writers.specs.ObjectBytes.{table_bytes};

    ghost can_put = { λ links. Unit {0} };

    ghost spelling = { table_bytes };

    fn put(&self, out: &mut FileWriter) -> Result<(), OutOfMemory> {
        put_each(out, self.as_slice())
    }
}

impl Put for Offer {
    ghost use Rattle.object_writers.specs.ObjectBytes.{OfferFits, offer_bytes};

    ghost can_put = { OfferFits };

    ghost spelling = { offer_bytes };

    #[tactic(auto, using(file_forms::proofs::WrittenLaws::appended_twice))]
    fn put(&self, out: &mut FileWriter) -> Result<(), OutOfMemory> {
        out.name(&self.name)?;
        out.u32(self.instance)?;
        out.u32(self.export)
    }
}

/// An image.
#[tactic(auto, using(file_forms::proofs::WrittenLaws::appended_twice))]
pub(crate) fn put_image(out: &mut FileWriter, image: &Image) -> Result<(), OutOfMemory>
    requires { ImageFits image.now }
    ensures { OnOk result (out.new ≡ appended out.old (image_bytes image.now)) }
{
    put_list(out, image.modules.as_slice())?;
    put_list(out, image.wanted.as_slice())?;
    put_list(out, image.instances.as_slice())?;
    put_each(out, image.links.as_slice())?;
    put_list(out, image.offered.as_slice())?;
    put_list(out, image.control.as_slice())
}
