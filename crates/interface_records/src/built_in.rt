//! The built-in interface, made item by item.

ghost use Rattle.std.specs.Prelude.{◌≡◌, [], IfOk};
ghost use Rattle.check_scopes.specs.mesa_base.specs.Name.{IsName};
ghost use Rattle.interface_records.specs.Faces.{parameter, unnamed, procedure, error, io_items, iodefs as built_in};

use crate::interface::Interface;
use check_scopes::mesa_base::{List, Name, OutOfMemory, Stamp};
use std::alloc::Global;
use typed_answers::held_trees::{both, pushed};
use typed_answers::mesa_types::{Face, FieldType, Fields, Item, ItemKind, Items, TypeTree};

fn name(alloc: Global, text: &[u8]) -> Result<Name, OutOfMemory>
    requires { IsName text.now }
    ensures { IfOk result (λ name. name ≡ text.now) }
{
    match Name::new(alloc, text)? {
        Some(name) => Ok(name),
        None => unreachable!(),
    }
}

fn parameter(alloc: Global, text: &[u8], kind: TypeTree) -> Result<Fields, OutOfMemory>
    requires { IsName text.now }
    ensures { IfOk result (λ fields. fields ≡ parameter text.now kind) }
{
    let (kind, name) = both(kind, name(alloc, text))?;
    let name = Some(name);
    pushed(List::new(alloc), FieldType { name, kind })
}

fn unnamed(alloc: Global, kind: TypeTree) -> Result<Fields, OutOfMemory>
    ensures { IfOk result (λ fields. fields ≡ unnamed kind) }
{
    pushed(List::new(alloc), FieldType { name: None, kind })
}

fn procedure(alloc: Global, text: &[u8], takes: Fields, gives: Fields) -> Result<Item, OutOfMemory>
    requires { IsName text.now }
    ensures { IfOk result (λ item. item ≡ procedure text.now takes gives) }
{
    let ((takes, gives), name) = both((takes, gives), name(alloc, text))?;
    Ok(Item {
        kind: ItemKind::Procedure,
        name,
        takes,
        gives,
    })
}

fn writer(alloc: Global, text: &[u8], of: &[u8], kind: TypeTree) -> Result<Item, OutOfMemory>
    requires named { IsName text.now }
    requires parameter_named { IsName of.now }
    ensures { IfOk result (λ item. item ≡ procedure text.now (parameter of.now kind) []) }
{
    let takes = parameter(alloc, of, kind)?;
    procedure(alloc, text, takes, List::new(alloc))
}

fn reader(alloc: Global, text: &[u8], kind: TypeTree) -> Result<Item, OutOfMemory>
    requires { IsName text.now }
    ensures { IfOk result (λ item. item ≡ procedure text.now [] (unnamed kind)) }
{
    let gives = unnamed(alloc, kind)?;
    procedure(alloc, text, List::new(alloc), gives)
}

fn error(alloc: Global, text: &[u8]) -> Result<Item, OutOfMemory>
    requires { IsName text.now }
    ensures { IfOk result (λ item. item ≡ error text.now) }
{
    Ok(Item {
        kind: ItemKind::Error,
        name: name(alloc, text)?,
        takes: List::new(alloc),
        gives: List::new(alloc),
    })
}

fn items(alloc: Global) -> Result<Items, OutOfMemory>
    ensures { IfOk result (λ items. items ≡ io_items) }
{
    let first = writer(alloc, b"WriteChar", b"c", TypeTree::Character)?;
    let items = pushed(List::new(alloc), first)?;
    let (items, item) = both(items, writer(alloc, b"WriteString", b"s", TypeTree::String))?;
    let items = pushed(items, item)?;
    let (items, item) = both(
        items,
        writer(alloc, b"WriteDecimal", b"n", TypeTree::Integer),
    )?;
    let items = pushed(items, item)?;
    let (items, item) = both(items, reader(alloc, b"ReadChar", TypeTree::Character))?;
    let items = pushed(items, item)?;
    let (items, item) = both(items, reader(alloc, b"EndOfInput", TypeTree::Boolean))?;
    let items = pushed(items, item)?;
    let (items, item) = both(items, error(alloc, b"NoInput"))?;
    pushed(items, item)
}

/// What IODefs offers, stamp 000000000001 (rule of this project).
pub fn io_face(alloc: Global) -> Result<Face, OutOfMemory>
    ensures { IfOk result (λ face. face ≡ built_in.face) }
{
    Ok(Face {
        name: name(alloc, b"IODefs")?,
        stamp: Stamp::new(1),
        items: items(alloc)?,
    })
}

/// The built-in interface IODefs, which has neither constants nor types (rule of this project).
pub fn iodefs(alloc: Global) -> Result<Interface, OutOfMemory>
    ensures { IfOk result (λ interface. interface ≡ built_in) }
{
    Ok(Interface {
        face: io_face(alloc)?,
        constants: List::new(alloc),
        types: List::new(alloc),
    })
}
