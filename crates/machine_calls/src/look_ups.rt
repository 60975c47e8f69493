//! What the code reads of an image and of the marks.

ghost use Rattle.std.specs.Prelude.{◌≡◌, ℕ, ◌<◌, IsSome, Some, false, length, nat_eq, slice_get, slice_index_or, ◌||◌};
ghost use Rattle.code_forms.specs.declared.instruction.Instruction.TheVariants.{CallLink};
ghost use Rattle.code_forms.specs.declared.module_code.CodeEntry.{CodeEntry};
ghost use Rattle.code_forms.specs.declared.module_code.CodeProcedure.{CodeProcedure};
ghost use Rattle.machine_rules.specs.LookUps.{bound_to, procedure_of, text_of};

use code_forms::{CodeProcedure, Instruction};
use object_files::{Image, Link};

/// Whether an instance needs no start for a call of its procedures: it is the caller's, or was started.
#[inline(always)]
pub(crate) fn is_started(marks: &[bool], caller: u32, instance: u32) -> bool
    requires there { instance < length marks.now }
    ensures { result ≡ (nat_eq caller instance || slice_index_or marks.now instance false) }
{
    caller == instance || marks[instance as usize]
}

/// What a link of an instance is bound to.
#[inline(always)]
#[tactic(auto, unfolding(machine_rules::specs::LookUps::bound_to))]
pub(crate) fn bound_to(image: &Image, instance: u32, number: u32) -> Link
    requires { IsSome (bound_to image.now instance number) }
    ensures { bound_to image.now instance number ≡ Some result }
{
    image.links.as_slice()[instance as usize].as_slice()[number as usize]
}

/// The procedure of this number of an instance.
pub(crate) fn procedure_of(image: &Image, instance: u32, number: u32) -> &CodeProcedure
    requires { IsSome (procedure_of image.now instance number) }
    ensures { procedure_of image.now instance number ≡ Some result.now }
{
    let module = image.instances.as_slice()[instance as usize].module as usize;
    let code = image.modules.as_slice()[module].code.code();
    &code.procedures.as_slice()[number as usize]
}

/// The link that is called at an entry.
pub(crate) fn link_called(procedure: &CodeProcedure, entry: usize) -> u32
    requires { IsSome (slice_get procedure.now.code entry) }
    ensures { (e : CodeEntry) (link : ℕ) → slice_get procedure.now.code entry ≡ Some e → e.instruction ≡ CallLink link → result ≡ link }
{
    match procedure.code.as_slice()[entry].instruction {
        Instruction::CallLink { link } => link,
        _ => 0,
    }
}

/// The bytes for which two words stand: a module's number plus 1, and that of a literal, counted from 1; others are an
/// empty string (rule of this project).
#[tactic(auto, unfolding(machine_rules::specs::LookUps::text_of, machine_rules::specs::LookUps::literal_of, machine_rules::specs::LookUps::code_in))]
pub(crate) fn text_of(image: &Image, number: u16, literal: u16) -> &[u8]
    ensures { result.now ≡ text_of image.now number literal }
{
    if number == 0 || literal == 0 {
        return &[];
    }
    let Some(object) = image.modules.get(usize::from(number) - 1) else {
        return &[];
    };
    match object.code.code().strings.get(usize::from(literal) - 1) {
        None => &[],
        Some(text) => text.as_slice(),
    }
}
