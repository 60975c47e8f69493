//! Lists of a file.
ghost use Rattle.std.specs.Prelude.{List as Values};
ghost use Rattle.file_forms.specs.Forms.{Form, several, list, at_least};
ghost use Rattle.file_forms.specs.Reads.{Reads};

use file_forms::{FileCursor, Stopped};
use mesa_base::List;
use std::alloc::Global;

/// What a list of a file is made of.
pub(crate) trait Element {
    type Made: Drop;

    ghost form: { Self → Values Self.Made → Form Self.Made };

    /// The next one, behind those before.
    fn read(
        &self,
        alloc: Global,
        input: &mut FileCursor<'_>,
        before: &List<Self::Made>,
    ) -> Result<Self::Made, Stopped>
        ensures { Reads ((form self.now before.now).read input.old.rest.now) result input.new.rest.now };
}

/// So many, one behind the other.
pub(crate) fn each<E: Element>(
    alloc: Global,
    input: &mut FileCursor<'_>,
    element: &E,
    count: usize,
) -> Result<List<E::Made>, Stopped>
    ensures { Reads ((several count (E.form element.now)).read input.old.rest.now) result input.new.rest.now }
{
    let mut all = List::new(alloc);
    'elements: for _ in 0..count {
        let one = match element.read(alloc, input, &all) {
            Ok(one) => one,
            Err(why) => return Err(why),
        };
        all.push(one)?;
    }
    Ok(all)
}

/// A count, and so many.
pub(crate) fn counted<E: Element>(
    alloc: Global,
    input: &mut FileCursor<'_>,
    element: &E,
) -> Result<List<E::Made>, Stopped>
    ensures { Reads ((list (at_least 0) (E.form element.now)).read input.old.rest.now) result input.new.rest.now }
{
    let count = input.count_from(0)?;
    each(alloc, input, element, count as usize)
}
