//! What is written as a part of a file, and lists of such parts.
ghost use Rattle.std.specs.Prelude.{◌≡◌, ℕ, ◌<◌, ◌^◌, ◌++◌, List, length, All, OnOk};
ghost use Rattle.file_forms.specs.Forms as form;
ghost use Rattle.file_forms.specs.Written.{appended};
ghost use Rattle.object_writers.specs.Spelling.{spell_all};

use file_forms::FileWriter;
use mesa_base::OutOfMemory;

/// A part of a file.
pub(crate) trait Put {
    ghost can_put: { Self → Type 0 };

    ghost spelling: { Self → List ℕ };

    /// Writes it.
    fn put(&self, out: &mut FileWriter) -> Result<(), OutOfMemory>
        requires { can_put self.now }
        ensures { OnOk result (out.new ≡ appended out.old (spelling self.now)) };
}

/// Parts, one behind the other.
pub(crate) fn put_each<T: Put>(out: &mut FileWriter, parts: &[T]) -> Result<(), OutOfMemory>
    requires { All T.can_put parts.now }
    ensures { OnOk result (out.new ≡ appended out.old (spell_all T.spelling parts.now)) }
{
    'parts: for part in parts {
        if out.is_full() {
            return Ok(());
        }
        part.put(out)?;
    }
    Ok(())
}

/// A count, and so many parts.
#[tactic(auto, using(file_forms::proofs::WrittenLaws::appended_twice))]
pub(crate) fn put_list<T: Put>(out: &mut FileWriter, parts: &[T]) -> Result<(), OutOfMemory>
    requires few { length parts.now < 2 ^ 32 }
    requires each { All T.can_put parts.now }
    ensures { OnOk result (out.new ≡ appended out.old ((form.number 4).spell (length parts.now) ++ spell_all T.spelling parts.now)) }
{
    out.u32(parts.len() as u32)?;
    put_each(out, parts)
}
