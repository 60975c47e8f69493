//! Counts and words that are not above a limit.
ghost use Rattle.std.specs.Prelude.{nat_le};
ghost use Rattle.file_forms.specs.Forms.{number, ruled};
ghost use Rattle.file_forms.specs.Reads.{Reads};
ghost use Rattle.mesa_base.specs.declared.file_fault.Field.TheVariants.{Length};
ghost use Rattle.object_rules.specs.Numbers.{length_where};

use file_forms::{FileCursor, Stopped};
use mesa_base::Field;

/// A count. Length: it is above the most.
pub fn count_up_to(input: &mut FileCursor<'_>, most: u32) -> Result<u32, Stopped>
    ensures { Reads ((ruled (number 4) (λ n. nat_le n most) Length).read input.old.rest.now) result input.new.rest.now }
{
    let left = input.rest.len();
    let count = input.u32()?;
    if count > most {
        return Err(Stopped::Bad(Field::Length, left));
    }
    Ok(count)
}

/// A number of words, of two bytes. Length: it is above the most.
pub fn words_up_to(input: &mut FileCursor<'_>, most: u32) -> Result<u16, Stopped>
    ensures { Reads ((length_where 2 (λ n. nat_le n most)).read input.old.rest.now) result input.new.rest.now }
{
    let left = input.rest.len();
    let words = input.u16()?;
    if u32::from(words) > most {
        return Err(Stopped::Bad(Field::Length, left));
    }
    Ok(words)
}
