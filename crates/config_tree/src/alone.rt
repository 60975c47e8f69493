//! The tree of one module alone.
ghost use Rattle.std.specs.Prelude.{◌≡◌, ◌≢◌, ◌∷◌, [], IfOk};
ghost use Rattle.interface_records.specs.Faces.{iodefs};
ghost use Rattle.config_rules.specs.InOrder.{ShapeInOrder, TreeIn};
ghost use Rattle.config_rules.specs.Tree.{IsSingle, single_tree};
ghost use Rattle.config_tree.specs.Outlines.{IsOutline};

use crate::differing::faces_agree;
use config_rules::{RecordPair, Tree, TreeCause, TreeFault, TreeInstance, TreeScope, TreeScopes};
use config_templates::{exported, imported};
use held_trees::{LetGo, both, pushed};
use interface_records::io_face;
use mesa_base::{List, Name, Numbers, OutOfMemory, Path, Place};
use mesa_types::{Names, Shape};
use std::alloc::Global;

const FIRST_PLACE: Place = Place {
    token: 0,
    line: 1,
    column: 1,
};

/// What the tree of a module has beside its shape.
#[derive(Drop)]
pub struct Outline {
    pub scopes: TreeScopes,
    pub path: Path,
    pub imports: Names,
    pub exports: Names,
    pub control: Numbers,
}

fn io_name(alloc: Global) -> Result<Name, OutOfMemory>
    ensures { IfOk result (λ name. name ≡ iodefs.face.name) }
{
    let face = io_face(alloc)?;
    let name = face.name.copy(alloc);
    face.let_go();
    name
}

fn outer_scope(alloc: Global) -> Result<TreeScope, OutOfMemory>
    ensures { IfOk result (λ scope. scope ≡ record { around = None; imports = record { inside = iodefs.face.name; outside = iodefs.face.name } ∷ []; exports = [] }) }
{
    let pair = RecordPair {
        inside: io_name(alloc)?,
        outside: io_name(alloc)?,
    };
    Ok(TreeScope {
        around: None,
        imports: List::of(alloc, pair)?,
        exports: List::new(alloc),
    })
}

fn outline_of(alloc: Global, shape: &Shape) -> Result<Outline, OutOfMemory>
    ensures { IfOk result (IsOutline shape.now) }
{
    Ok(Outline {
        scopes: List::of(alloc, outer_scope(alloc)?)?,
        path: List::of(alloc, shape.name.copy(alloc)?)?,
        imports: imported(alloc, shape.imports.as_slice())?,
        exports: exported(alloc, shape.exports.as_slice())?,
        control: List::of(alloc, 0)?,
    })
}

fn single_tree(alloc: Global, shape: Shape) -> Result<Tree, OutOfMemory>
    ensures { IfOk result (λ tree. tree ≡ single_tree shape) }
{
    let outline = outline_of(alloc, &shape);
    let (shape, outline) = both(shape, outline)?;
    let Outline {
        scopes,
        path,
        imports,
        exports,
        control,
    } = outline;
    let instance = TreeInstance {
        path,
        component: 0,
        scope: 0,
        shape,
        imports,
        exports,
    };
    let instances = pushed(List::new(alloc), instance)?;
    Ok(Tree {
        scopes,
        instances,
        control,
    })
}

/// The tree of one module by itself: that one instance, which is started, in a scope that imports the built-in interface. The module
/// imports and exports by the names of its interfaces (a rule of this project).
///
/// InterfaceDiffers at the text's first place: two of the faces of the shape and the built-in interface's have one name and stamp,
/// and are not the same. Memory: it ran out.
pub fn single(alloc: Global, shape: Shape) -> Result<Tree, TreeFault>
    requires { ShapeInOrder shape }
    ensures tree { result ≢ Err TreeFault.Memory → IsSingle shape result }
    ensures in_order { IfOk result (TreeIn (shape ∷ [])) }
{
    let agree = faces_agree(alloc, &shape);
    let (shape, agree) = both(shape, agree)?;
    if !agree {
        shape.let_go();
        return Err(TreeFault::At(TreeCause::InterfaceDiffers, FIRST_PLACE));
    }
    Ok(single_tree(alloc, shape)?)
}
