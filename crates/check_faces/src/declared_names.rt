//! What a module's own names mean before their declaration.
ghost use Rattle.std.specs.Prelude.{◌≡◌, ◌++◌, map, IfOk, OnOk};
ghost use Rattle.check_faces.specs.Ahead as step;
ghost use Rattle.check_scopes.specs.Scopes.{over};
ghost use Rattle.check_state.specs.Views as view;
ghost use Rattle.check_rules.specs.Definitions as interface;
ghost use Rattle.check_rules.specs.Programs as spec;
ghost use Rattle.syntax_trees.specs.PlainSyntax as plain;

use check_scopes::Names;
use check_state::Meaning;
use mesa_base::{Identifier, Identifiers, OutOfMemory};
use std::alloc::Global;
use syntax_trees::syntax::{
    Declaration, Declared, Defined, FieldList, Labeled, PlainItem, TypeExp,
};

/// The names mean this, unless they mean something.
fn also(
    names: &[Identifier],
    alloc: Global,
    meaning: &Meaning,
    scope: &mut Names<Meaning>,
) -> Result<(), OutOfMemory>
    ensures { OnOk result (view.names scope.new ≡ over (view.names scope.old) (step.all (view.meaning meaning.now) names.now)) }
{
    for name in names {
        scope.declare_first(alloc, name.name.bytes(), meaning.share(alloc)?)?;
    }
    Ok(())
}

/// The elements of the enumerations in a type are declared further on.
#[cycle(elements)]
#[tactic(auto, using(syntax_trees::proofs::PlainForms::type_exp_forms, crate::proofs::AheadLaws::none_more, crate::proofs::AheadLaws::two_more), unfolding(check_rules::specs::Programs::elements_of))]
fn also_elements(e: &TypeExp, alloc: Global, scope: &mut Names<Meaning>) -> Result<(), OutOfMemory>
    ensures { OnOk result (view.names scope.new ≡ over (view.names scope.old) (step.later (spec.elements_of (plain.type_exp e.now)))) }
{
    match e {
        TypeExp::Enumeration(_, elements) => {
            also(elements.as_slice(), alloc, &Meaning::Later, scope)
        }
        TypeExp::Array(_, index, element) => {
            also_elements(index.get(), alloc, scope)?;
            also_elements(element.get(), alloc, scope)
        }
        TypeExp::Record(_, fields) => also_in_fields(fields, alloc, scope),
        TypeExp::Integer(_)
        | TypeExp::Cardinal(_)
        | TypeExp::LongInteger(_)
        | TypeExp::LongCardinal(_)
        | TypeExp::Boolean(_)
        | TypeExp::Character(_)
        | TypeExp::String(_)
        | TypeExp::Called(_)
        | TypeExp::Subrange(_, _) => Ok(()),
    }
}

#[cycle(elements)]
#[tactic(auto, using(syntax_trees::proofs::PlainForms::field_list_forms), unfolding(check_rules::specs::Programs::elements_in))]
fn also_in_fields(
    fields: &FieldList,
    alloc: Global,
    scope: &mut Names<Meaning>,
) -> Result<(), OutOfMemory>
    ensures { OnOk result (view.names scope.new ≡ over (view.names scope.old) (step.later (spec.elements_in (plain.field_list fields.now)))) }
{
    match fields {
        FieldList::WithNames(all) => also_in_named(all.as_slice(), alloc, scope),
        FieldList::Unnamed(all) => also_in_types(all.as_slice(), alloc, scope),
    }
}

#[cycle(elements)]
fn also_in_named(
    fields: &[Labeled<Identifiers, TypeExp>],
    alloc: Global,
    scope: &mut Names<Meaning>,
) -> Result<(), OutOfMemory>
    ensures { OnOk result (view.names scope.new ≡ over (view.names scope.old) (step.later (spec.elements_in_named (plain.named_fields fields.now)))) }
{
    for field in fields {
        also_elements(&field.item, alloc, scope)?;
    }
    Ok(())
}

#[cycle(elements)]
fn also_in_types(
    types: &[TypeExp],
    alloc: Global,
    scope: &mut Names<Meaning>,
) -> Result<(), OutOfMemory>
    ensures { OnOk result (view.names scope.new ≡ over (view.names scope.old) (step.later (spec.elements_in_types (plain.types types.now)))) }
{
    for kind in types {
        also_elements(kind, alloc, scope)?;
    }
    Ok(())
}

/// Names of a type, variable or constant, and the elements in its type.
fn data_ahead(
    names: &[Identifier],
    alloc: Global,
    kind: &TypeExp,
    scope: &mut Names<Meaning>,
) -> Result<(), OutOfMemory>
    ensures { OnOk result (view.names scope.new ≡ over (view.names scope.old) (step.later (names.now ++ spec.elements_of (plain.type_exp kind.now)))) }
{
    also(names, alloc, &Meaning::Later, scope)?;
    also_elements(kind, alloc, scope)
}

/// The type in a declaration.
#[tactic(auto, using(syntax_trees::proofs::PlainForms::plain_item_forms))]
fn type_of(item: &PlainItem) -> &TypeExp
    ensures { plain.type_exp result.now ≡ spec.type_of (plain.plain_item item.now) }
{
    match item {
        PlainItem::TypeIs(kind)
        | PlainItem::Variable(kind)
        | PlainItem::Initial(kind, _)
        | PlainItem::Constant(kind, _) => kind,
    }
}

fn one_ahead(
    declaration: &Declaration,
    alloc: Global,
    scope: &mut Names<Meaning>,
) -> Result<(), OutOfMemory>
    ensures { OnOk result (view.names scope.new ≡ over (view.names scope.old) (step.declared (plain.declaration declaration.now))) }
{
    let names = declaration.names.as_slice();
    match &declaration.declared {
        Declared::Data(item) => data_ahead(names, alloc, type_of(item), scope),
        Declared::Procedure(_, _) | Declared::Signal(_) | Declared::Error(_) => {
            also(names, alloc, &Meaning::Headless, scope)
        }
    }
}

/// What the names that a program declares mean before their declaration, elements of enumerations included.
pub fn ahead(declarations: &[Declaration], alloc: Global) -> Result<Names<Meaning>, OutOfMemory>
    ensures { IfOk result (λ names. view.names names ≡ spec.ahead (map plain.declaration declarations.now)) }
{
    let mut names = Names::new(alloc);
    for declaration in declarations {
        one_ahead(declaration, alloc, &mut names)?;
    }
    Ok(names)
}

fn one_ahead_in_interface(
    definition: &Labeled<Identifiers, Defined>,
    alloc: Global,
    scope: &mut Names<Meaning>,
) -> Result<(), OutOfMemory>
    ensures { OnOk result (view.names scope.new ≡ over (view.names scope.old) (step.defined (plain.definition definition.now))) }
{
    let names = definition.labels.as_slice();
    match &definition.item {
        Defined::TypeItem(kind) | Defined::ConstantItem(kind, _) => {
            data_ahead(names, alloc, kind, scope)
        }
        Defined::ProcedureItem(_) | Defined::SignalItem(_) | Defined::ErrorItem(_) => {
            also(names, alloc, &Meaning::Headless, scope)
        }
    }
}

/// The same of an interface's names.
pub fn ahead_in_interface(
    definitions: &[Labeled<Identifiers, Defined>],
    alloc: Global,
) -> Result<Names<Meaning>, OutOfMemory>
    ensures { IfOk result (λ names. view.names names ≡ interface.ahead (map plain.definition definitions.now)) }
{
    let mut names = Names::new(alloc);
    for definition in definitions {
        one_ahead_in_interface(definition, alloc, &mut names)?;
    }
    Ok(names)
}
