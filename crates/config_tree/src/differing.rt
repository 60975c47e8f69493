//! Faces of one name and stamp that differ.
ghost use Rattle.std.specs.Prelude.{◌≡◌, ◌<◌, ◌∷◌, [], length, map, IfOk, MatchOption, MatchBool};
ghost use Rattle.interface_records.specs.Faces.{iodefs};
ghost use Rattle.config_rules.specs.Tree.{Agree, FirstToDiffer, all_faces, faces_of};
ghost use Rattle.config_tree.specs.Noted.{Noted, Notes};

use crate::face_key::{FaceKey, key_of};
use held_trees::LetGo;
use indexmap::IndexMap;
use interface_records::{io_face, same_face};
use mesa_base::OutOfMemory;
use mesa_types::{Export, Face, Import, Shape};
use std::alloc::Global;

/// Of each name and stamp the face that was seen first.
type SeenFaces<'a> = IndexMap<FaceKey, &'a Face>;

/// Whether the face is the one of its name and stamp that was seen before, if any was.
fn agrees<'a>(alloc: Global, seen: &mut SeenFaces<'a>, face: &'a Face) -> Result<bool, OutOfMemory>
    ensures { IfOk result (λ same. Noted seen.old.entries (face.now ∷ []) seen.new.entries same) }
{
    let key = key_of(alloc, face)?;
    if let Some(first) = seen.get(&key) {
        return Ok(same_face(first, face));
    }
    seen.insert(key, face)?;
    Ok(true)
}

fn imports_agree<'a>(
    alloc: Global,
    seen: &mut SeenFaces<'a>,
    imports: &'a [Import],
) -> Result<bool, OutOfMemory>
    ensures { IfOk result (λ same. Noted seen.old.entries (map (λ m. m.face) imports.now) seen.new.entries same) }
{
    for import in imports {
        if !agrees(alloc, seen, &import.face)? {
            return Ok(false);
        }
    }
    Ok(true)
}

fn exports_agree<'a>(
    alloc: Global,
    seen: &mut SeenFaces<'a>,
    exports: &'a [Export],
) -> Result<bool, OutOfMemory>
    ensures { IfOk result (λ same. Noted seen.old.entries (map (λ x. x.face) exports.now) seen.new.entries same) }
{
    for export in exports {
        if !agrees(alloc, seen, &export.face)? {
            return Ok(false);
        }
    }
    Ok(true)
}

fn shape_agrees<'a>(
    alloc: Global,
    seen: &mut SeenFaces<'a>,
    shape: &'a Shape,
) -> Result<bool, OutOfMemory>
    ensures { IfOk result (λ same. Noted seen.old.entries (faces_of shape.now) seen.new.entries same) }
{
    Ok(
        imports_agree(alloc, seen, shape.imports.as_slice())?
            && exports_agree(alloc, seen, shape.exports.as_slice())?,
    )
}

fn first_seen<'a>(alloc: Global, face: &'a Face) -> Result<SeenFaces<'a>, OutOfMemory>
    ensures { IfOk result (λ seen. Notes (face.now ∷ []) seen.entries) }
{
    let mut seen = IndexMap::new(alloc);
    seen.insert(key_of(alloc, face)?, face)?;
    Ok(seen)
}

fn differing_behind(
    alloc: Global,
    built_in: &Face,
    shapes: &[Shape],
) -> Result<Option<usize>, OutOfMemory>
    requires { built_in.now ≡ iodefs.face }
    ensures { IfOk result (λ first. MatchOption first (Agree (all_faces shapes.now)) (λ n. (n < length shapes.now) × FirstToDiffer shapes.now n)) }
{
    let mut seen = first_seen(alloc, built_in)?;
    for (n, shape) in shapes.iter().enumerate() {
        if !shape_agrees(alloc, &mut seen, shape)? {
            return Ok(Some(n));
        }
    }
    Ok(None)
}

/// The first shape with a face that differs from an earlier one of its name and stamp, the built-in interface's face being the
/// first of all; None exactly where faces of one name and stamp are one. It asks each face once.
pub fn first_to_differ(alloc: Global, shapes: &[Shape]) -> Result<Option<usize>, OutOfMemory>
    ensures { IfOk result (λ first. MatchOption first (Agree (all_faces shapes.now)) (λ n. (n < length shapes.now) × FirstToDiffer shapes.now n)) }
{
    let built_in = io_face(alloc)?;
    let first = differing_behind(alloc, &built_in, shapes);
    built_in.let_go();
    first
}

fn agree_behind(alloc: Global, built_in: &Face, shape: &Shape) -> Result<bool, OutOfMemory>
    requires { built_in.now ≡ iodefs.face }
    ensures { IfOk result (λ agree. MatchBool agree (Agree (all_faces (shape.now ∷ []))) (Agree (all_faces (shape.now ∷ [])) → ⊥)) }
{
    let mut seen = first_seen(alloc, built_in)?;
    shape_agrees(alloc, &mut seen, shape)
}

/// Whether the faces of this one shape agree with each other and the built-in interface's face.
pub fn faces_agree(alloc: Global, shape: &Shape) -> Result<bool, OutOfMemory>
    ensures { IfOk result (λ agree. MatchBool agree (Agree (all_faces (shape.now ∷ []))) (Agree (all_faces (shape.now ∷ [])) → ⊥)) }
{
    let built_in = io_face(alloc)?;
    let agree = agree_behind(alloc, &built_in, shape);
    built_in.let_go();
    agree
}
