//! Names, origins and names of fields as bytes.
ghost use Rattle.std.specs.Prelude.{◌≡◌, [], List, OnOk};
ghost use Rattle.mesa_types.specs.declared.types.FieldType.{FieldType};
ghost use Rattle.file_forms.specs.Forms.{FitEach, spell_each};
ghost use Rattle.file_forms.specs.Names.{fresh_name};
ghost use Rattle.file_forms.specs.Written.{appended};
ghost use Rattle.face_rules.specs.TypeForms as form;

use file_forms::FileWriter;
use mesa_base::{Name, OutOfMemory};
use mesa_types::Origin;

/// Names, none of them twice, one behind the other.
#[tactic(auto, unfolding(file_forms::specs::Names::fresh_name))]
pub(crate) fn put_names(out: &mut FileWriter, names: &[Name]) -> Result<(), OutOfMemory>
    requires { FitEach fresh_name [] names.now }
    ensures { OnOk result (out.new ≡ appended out.old (spell_each fresh_name [] names.now)) }
{
    'names: for name in names {
        if out.is_full() {
            return Ok(());
        }
        out.name(name)?;
    }
    Ok(())
}

/// The declaration of a record or an enumeration, which is one of an interface.
#[tactic(auto, using(file_forms::proofs::WrittenLaws::appended_twice), unfolding(face_rules::specs::TypeForms::origin))]
pub(crate) fn put_origin(out: &mut FileWriter, origin: &Origin) -> Result<(), OutOfMemory>
    requires { form.origin.fits origin.now }
    ensures { OnOk result (out.new ≡ appended out.old (form.origin.spell origin.now)) }
{
    match origin.stamp {
        Some(stamp) => {
            out.name(&origin.module)?;
            out.stamp(stamp)?;
            out.u32(origin.number)
        }
        None => Ok(()),
    }
}

/// The name of a field, or that it has none.
#[tactic(auto, using(file_forms::proofs::WrittenLaws::appended_twice), unfolding(face_rules::specs::TypeForms::label, file_forms::specs::Names::short_text, file_forms::specs::Names::name))]
pub(crate) fn put_label(out: &mut FileWriter, label: &Option<Name>) -> Result<(), OutOfMemory>
    requires { (before : List FieldType) × (form.label before).fits label.now }
    ensures { OnOk result (out.new ≡ appended out.old ((form.label []).spell label.now)) }
{
    match label {
        Some(name) => {
            out.u8(name.bytes().len() as u8)?;
            out.raw(name.bytes())
        }
        None => out.u8(0),
    }
}
