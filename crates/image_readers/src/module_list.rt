//! The modules of an image.
ghost use Rattle.std.specs.Prelude.{map, nat_le, All, IfOk};
ghost use Rattle.file_forms.specs.Forms.{list, several};
ghost use Rattle.file_forms.specs.Reads.{ReadsAs};
ghost use Rattle.object_readers.specs.Rows.{module_part, RowsFit};
ghost use Rattle.object_rules.specs.ModuleForms as form;
ghost use Rattle.object_rules.specs.declared.limits.TheConstants.{IMAGE_MODULES};

use file_forms::{FileCursor, Stopped};
use held_objects::{ManyRows, Pile, with_rows};
use held_trees::LetGo;
use object_readers::module_readers::count_up_to;
use object_readers::module_rows;
use object_rules::limits::IMAGE_MODULES;
use std::alloc::Global;

fn each_module(
    alloc: Global,
    input: &mut FileCursor<'_>,
    version: u8,
    count: u32,
) -> Result<ManyRows, Stopped>
    ensures read { ReadsAs (map module_part) ((several count (λ _. form.module_form version)).read input.old.rest.now) result input.new.rest.now }
    ensures whole { IfOk result (All RowsFit) }
{
    let mut all = Pile::new(alloc);
    'modules: for _ in 0..count {
        let rows = match module_rows(alloc, input, version) {
            Ok(rows) => rows,
            Err(why) => {
                all.let_go();
                return Err(why);
            }
        };
        all = with_rows(all, rows)?;
    }
    Ok(all)
}

/// The modules of an image. Length: there are too many.
pub(crate) fn modules(
    alloc: Global,
    input: &mut FileCursor<'_>,
    version: u8,
) -> Result<ManyRows, Stopped>
    ensures read { ReadsAs (map module_part) ((list (λ n. nat_le n IMAGE_MODULES) (λ _. form.module_form version)).read input.old.rest.now) result input.new.rest.now }
    ensures whole { IfOk result (All RowsFit) }
{
    let count = count_up_to(input, IMAGE_MODULES)?;
    each_module(alloc, input, version, count)
}
