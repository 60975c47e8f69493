//! The strings of a module.
ghost use Rattle.std.specs.Prelude.{nat_le};
ghost use Rattle.file_forms.specs.Forms.{list, several};
ghost use Rattle.file_forms.specs.Reads.{Reads};
ghost use Rattle.mesa_base.specs.declared.limits.TheConstants.{DISTINCT_STRINGS};
ghost use Rattle.object_rules.specs.ModuleForms as form;

use crate::counts::{count_up_to, words_up_to};
use file_forms::{FileCursor, Stopped};
use mesa_base::limits::{DISTINCT_STRINGS, STRING_BYTES};
use mesa_base::{Bytes, List, Texts};
use std::alloc::Global;

#[tactic(auto, unfolding(object_rules::specs::ModuleForms::text))]
fn text(alloc: Global, input: &mut FileCursor<'_>) -> Result<Bytes, Stopped>
    ensures { Reads (form.text.read input.old.rest.now) result input.new.rest.now }
{
    let size = words_up_to(input, STRING_BYTES as u32)?;
    let bytes = input.raw(size as usize)?;
    Ok(List::from_slice(alloc, bytes)?)
}

fn each_text(alloc: Global, input: &mut FileCursor<'_>, count: u32) -> Result<Texts, Stopped>
    ensures { Reads ((several count (λ _. form.text)).read input.old.rest.now) result input.new.rest.now }
{
    let mut all = List::new(alloc);
    'texts: for _ in 0..count {
        let text = match text(alloc, input) {
            Ok(text) => text,
            Err(why) => return Err(why),
        };
        all.push(text)?;
    }
    Ok(all)
}

/// The strings of a module.
pub fn strings(alloc: Global, input: &mut FileCursor<'_>) -> Result<Texts, Stopped>
    ensures { Reads ((list (λ n. nat_le n DISTINCT_STRINGS) (λ _. form.text)).read input.old.rest.now) result input.new.rest.now }
{
    let count = count_up_to(input, DISTINCT_STRINGS as u32)?;
    each_text(alloc, input, count)
}
