//! The first wanted item that one gives who has another face than an import that links to it.

ghost use Rattle.std.specs.Prelude.{◌≡◌, ◌∷◌, [], ◌++◌, not, IfOk, OnOk, Some, length};
ghost use Rattle.loader_rules.specs.Exporters.{module_at};
ghost use Rattle.loader_rules.specs.LoadFaults.{faces_linked};
ghost use Rattle.loader_rules.specs.SameFaces.{same_face};
ghost use Rattle.load_checks.specs.Choosing.{choices_shown};
ghost use Rattle.load_checks.specs.Faces.{all_lowered, differs_at, faces_at, faces_of, faces_shown, lowered, lowered_in};

use crate::exporters::Exporter;
use crate::offering::module_of;
use interface_records::same_face;
use mesa_base::OutOfMemory;
use mesa_types::{Face, Import};
use object_files::{Image, Instance, Link, LinkTable, Object};
use std::alloc::Global;

fn is_other(a: &Face, b: &Face) -> bool
    ensures { result ≡ not (same_face a.now b.now) }
{
    !same_face(a, b)
}

fn differs_at(chosen: &[Option<Exporter>], number: usize, face: &Face) -> bool
    ensures { result ≡ differs_at (choices_shown chosen.now) number (face.now ∷ []) }
{
    match chosen.get(number) {
        Some(Some(exporter)) => is_other(exporter.face, face),
        _ => false,
    }
}

fn lowered(chosen: &[Option<Exporter>], least: usize, face: &Face, link: &Link) -> usize
    ensures { result ≡ lowered (choices_shown chosen.now) least face.now link.now }
{
    match link {
        Link::Wanted(number) => {
            let number = *number as usize;
            if number < least && differs_at(chosen, number, face) {
                number
            } else {
                least
            }
        }
        Link::To { .. } => least,
    }
}

fn put_face<'a>(
    faces: &mut Vec<&'a Face>,
    import: &'a Import,
    number: u32,
) -> Result<(), OutOfMemory>
    ensures { OnOk result (faces_shown faces.new.items ≡ faces_shown faces.old.items ++ faces_at import.now.face (number ∷ [])) }
{
    match import.face.items.get(number as usize) {
        Some(_) => {
            faces.push(&import.face)?;
            Ok(())
        }
        None => Ok(()),
    }
}

fn put_faces<'a>(faces: &mut Vec<&'a Face>, import: &'a Import) -> Result<(), OutOfMemory>
    ensures { OnOk result (faces_shown faces.new.items
        ≡ faces_shown faces.old.items ++ faces_of import.now) }
{
    for number in import.used.as_slice() {
        put_face(faces, import, *number)?;
    }
    Ok(())
}

// The face of each link of a module.
fn faces_linked<'a>(alloc: Global, object: &'a Object) -> Result<Vec<&'a Face>, OutOfMemory>
    ensures { IfOk result (λ faces. faces_shown faces.items ≡ faces_linked (Some object.now)) }
{
    let mut faces = Vec::new(alloc);
    for import in object.shape.imports.as_slice() {
        put_faces(&mut faces, import)?;
    }
    Ok(faces)
}

fn lowered_by(
    chosen: &[Option<Exporter>],
    mut least: usize,
    faces: &[&Face],
    table: &LinkTable,
) -> usize
    ensures { result ≡ all_lowered (choices_shown chosen.now) least (faces_shown faces.now) table.now }
{
    for (at, face) in faces.iter().enumerate() {
        let Some(link) = table.get(at) else {
            return least;
        };
        least = lowered(chosen, least, face, link);
    }
    least
}

fn lowered_in(
    alloc: Global,
    image: &Image,
    chosen: &[Option<Exporter>],
    least: usize,
    instance: &Instance,
    table: &LinkTable,
) -> Result<usize, OutOfMemory>
    ensures { IfOk result (λ lower. lower
        ≡ all_lowered (choices_shown chosen.now) least (faces_linked (module_at image.now (Some instance.now))) table.now) }
{
    match module_of(image, Some(instance)) {
        Some(object) => {
            let faces = faces_linked(alloc, object)?;
            Ok(lowered_by(chosen, least, faces.as_slice(), table))
        }
        None => Ok(least),
    }
}

/// The number of the first item for which one is chosen who has another face than an import that links to it; where there is none, that of
/// those chosen.
pub fn least_differing(
    alloc: Global,
    image: &Image,
    chosen: &[Option<Exporter>],
) -> Result<usize, OutOfMemory>
    ensures { IfOk result (λ least. least
        ≡ lowered_in image.now (choices_shown chosen.now) (length chosen.now) image.now.instances image.now.links) }
{
    let mut least = chosen.len();
    let instances = image.instances.as_slice();
    for (at, instance) in instances.iter().enumerate() {
        let Some(table) = image.links.get(at) else {
            return Ok(least);
        };
        least = lowered_in(alloc, image, chosen, least, instance, table)?;
    }
    Ok(least)
}
