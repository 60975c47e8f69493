//! Numbers below a limit.
ghost use Rattle.file_forms.specs.Forms.{list, at_least};
ghost use Rattle.file_forms.specs.Reads.{Reads};
ghost use Rattle.object_rules.specs.Numbers.{number_where, is_below};

use crate::elements::{Element, counted};
use file_forms::{FileCursor, Stopped};
use mesa_base::{Field, Numbers};
use std::alloc::Global;

/// A number of four bytes. Number: it is not below the limit.
pub(crate) fn number_below(input: &mut FileCursor<'_>, limit: usize) -> Result<u32, Stopped>
    ensures { Reads ((number_where 4 (is_below limit)).read input.old.rest.now) result input.new.rest.now }
{
    let left = input.rest.len();
    let number = input.u32()?;
    if number as usize >= limit {
        return Err(Stopped::Bad(Field::Number, left));
    }
    Ok(number)
}

#[derive(Drop)]
struct Below {
    limit: usize,
}

impl Element for Below {
    ghost use Rattle.object_rules.specs.Numbers.{number_where, is_below};

    type Made = u32;

    ghost form = { λ one _. number_where 4 (is_below one.limit) };

    fn read(&self, _: Global, input: &mut FileCursor<'_>, _: &Numbers) -> Result<u32, Stopped> {
        number_below(input, self.limit)
    }
}

/// Numbers below a limit, as of the instances that are started.
pub(crate) fn numbers_below(
    alloc: Global,
    input: &mut FileCursor<'_>,
    limit: usize,
) -> Result<Numbers, Stopped>
    ensures { Reads ((list (at_least 0) (λ _. number_where 4 (is_below limit))).read input.old.rest.now) result input.new.rest.now }
{
    counted(alloc, input, &Below { limit })
}
