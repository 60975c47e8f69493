//! An image of the rows of its file.
ghost use Rattle.std.specs.Prelude.{◌≡◌, ◌≢◌, ◌++◌, ◌∷◌, [], ◌<◌, ◌^◌, length, map, All, IfErr, IfOk};
ghost use Rattle.image_readers.specs.Rows.{image_part, AreInRange, HasOneFault};
ghost use Rattle.object_files.specs.declared.object.Object.{Object as OneObject};
ghost use Rattle.object_readers.specs.Built.{HasFault};
ghost use Rattle.object_readers.specs.Rows.{module_part, RowsFit};
ghost use Rattle.object_rules.specs.ImageForms.{parts_of_image};
ghost use Rattle.object_rules.specs.Parts.{parts_of, IsWhole};

use crate::image_rows::{ImageRows, ImageTail};
use held_objects::{ImageHead, ManyRows, ModuleRows, let_objects_go, let_wanted_go, with_object};
use held_trees::LetGo;
use mesa_base::List;
use object_files::{Image, Objects};
use object_readers::object;
use object_rules::ObjectFault;
use std::alloc::Global;

// The objects with that of these rows, whose number is this.
fn grown(alloc: Global, number: u32, rows: ModuleRows, all: Objects) -> Result<Objects, ObjectFault>
    requires rows { RowsFit rows }
    requires ranges { AreInRange rows }
    ensures made { IfOk result (λ more. (o : OneObject) × (more ≡ all ++ o ∷ []) × (parts_of o ≡ module_part rows) × IsWhole o) }
    ensures fault { IfErr result (λ e. e ≢ ObjectFault.Memory → HasFault number (module_part rows) e) }
{
    match object(alloc, number, rows) {
        Ok(object) => match with_object(all, object) {
            Ok(more) => Ok(more),
            Err(_) => Err(ObjectFault::Memory),
        },
        Err(fault) => {
            let_objects_go(all);
            Err(fault)
        }
    }
}

// The objects of these rows. Code: the first module with a fault of its code.
fn objects(alloc: Global, mut modules: ManyRows) -> Result<Objects, ObjectFault>
    requires few { length modules < 2 ^ 32 }
    requires rows { All RowsFit modules }
    requires ranges { All AreInRange modules }
    ensures made { IfOk result (λ os. (map parts_of os ≡ map module_part modules) × All IsWhole os) }
    ensures fault { IfErr result (λ e. e ≢ ObjectFault.Memory → HasOneFault (map module_part modules) e) }
{
    modules.reverse();
    let mut all = List::new(alloc);
    'each: while let Some(rows) = modules.pop() {
        let number = all.len() as u32;
        all = match grown(alloc, number, rows, all) {
            Ok(more) => more,
            Err(fault) => {
                modules.let_go();
                return Err(fault);
            }
        };
    }
    modules.let_go();
    Ok(all)
}

/// The image of these rows. Code: the first fault of its code.
pub(crate) fn image(alloc: Global, rows: ImageRows) -> Result<Image, ObjectFault>
    requires few { length rows.head.modules < 2 ^ 32 }
    requires rows { All RowsFit rows.head.modules }
    requires ranges { All AreInRange rows.head.modules }
    ensures made { IfOk result (λ i. (parts_of_image i ≡ image_part rows) × All IsWhole i.modules) }
    ensures fault { IfErr result (λ e. e ≢ ObjectFault.Memory → HasOneFault (map module_part rows.head.modules) e) }
{
    let ImageRows { head, tail } = rows;
    let ImageHead { modules, wanted } = head;
    let modules = match objects(alloc, modules) {
        Ok(modules) => modules,
        Err(fault) => {
            let_wanted_go(wanted);
            return Err(fault);
        }
    };
    let ImageTail {
        instances,
        links,
        offered,
        control,
    } = tail;
    Ok(Image {
        modules,
        wanted,
        instances,
        links,
        offered,
        control,
    })
}
