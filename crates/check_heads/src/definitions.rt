//! What one declaration of an interface declares.
ghost use Rattle.std.specs.Prelude.{◌≡◌, [], map, IfOk};
ghost use Rattle.syntax_trees.specs.PlainSyntax as syntax;
ghost use Rattle.check_rules.specs.Definitions as spec;
ghost use Rattle.interface_records.specs.PlainTypes.{plain, plain_constant, plain_name};
ghost use Rattle.check_state.specs.Gives.{Gives};
ghost use Rattle.check_state.specs.Views as words;
ghost use Rattle.check_heads.specs.Forms as form;
ghost use Rattle.check_heads.specs.Views as view;

use crate::headings::heading;
use crate::items::item_names;
use check_rules::CheckFault;
use check_state::{Aim, Around, Meaning, State};
use check_written_types::check_declared::{constant_meaning, few_operands, first_name};
use check_written_types::check_expressions::{Checker, Phrases};
use check_written_types::check_operands::first;
use check_written_types::type_exp;
use held_trees::{LetGo, both};
use interface_records::{Constant, Constants, NamedType, NamedTypes};
use mesa_base::{Identifier, Identifiers, List, OutOfMemory};
use mesa_types::{ItemKind, Items, TypeTree};
use std::alloc::Global;
use syntax_trees::syntax::{Defined, Expr, FieldList, Labeled, TypeExp};

/// The items, constants and types that declarations of an interface declare, each list in order.
#[derive(Drop)]
pub struct AllDefined {
    pub items: Items,
    pub constants: Constants,
    pub types: NamedTypes,
}

#[tactic(auto, unfolding(crate::specs::Forms::item))]
fn item<P: Phrases>(
    takes: &Option<FieldList>,
    gives: &Option<FieldList>,
    checker: &Checker<P>,
    around: &Around<'_>,
    state: &mut State,
    kind: ItemKind,
    names: &[Identifier],
) -> Result<AllDefined, CheckFault>
    requires { P.ask checker.now.phrases }
    ensures { Gives view.defined (form.item (words.around around.now) kind names.now (syntax.maybe_fields takes.now) (syntax.maybe_fields gives.now) (words.state state.old)) result (words.state state.new) }
{
    let alloc = checker.alloc;
    let head = heading(takes, gives, checker, around, state)?;
    let items = item_names(names, alloc, state, kind, &head)?;
    Ok(AllDefined {
        items,
        constants: List::new(alloc),
        types: List::new(alloc),
    })
}

fn named_types(
    names: &[Identifier],
    alloc: Global,
    kind: &TypeTree,
) -> Result<NamedTypes, OutOfMemory>
    ensures { IfOk result (λ types. map plain_name types ≡ map (spec.named_type (plain kind.now)) names.now) }
{
    let mut types = List::new(alloc);
    for name in names {
        types.push(NamedType {
            name: name.name.copy(alloc)?,
            kind: kind.copy(alloc)?,
        })?;
    }
    Ok(types)
}

#[tactic(auto, unfolding(crate::specs::Forms::type_names))]
fn type_names<P: Phrases>(
    e: &TypeExp,
    checker: &Checker<P>,
    around: &Around<'_>,
    state: &mut State,
    names: &[Identifier],
) -> Result<AllDefined, CheckFault>
    requires { P.ask checker.now.phrases }
    ensures { Gives view.defined (form.type_names (words.around around.now) names.now (syntax.type_exp e.now) (words.state state.old)) result (words.state state.new) }
{
    let alloc = checker.alloc;
    let kind = type_exp(e, checker, around, state)?;
    let types = named_types(names, alloc, &kind)?;
    state.settle(alloc, names, &Meaning::TypeName(kind))?;
    Ok(AllDefined {
        items: List::new(alloc),
        constants: List::new(alloc),
        types,
    })
}

fn named_constants(
    names: &[Identifier],
    alloc: Global,
    kind: &TypeTree,
    value: u32,
) -> Result<Constants, OutOfMemory>
    ensures { IfOk result (λ made. map plain_constant made ≡ map (form.named_constant (plain kind.now) value) names.now) }
{
    let mut constants = List::new(alloc);
    for name in names {
        constants.push(Constant {
            name: name.name.copy(alloc)?,
            kind: kind.copy(alloc)?,
            value,
        })?;
    }
    Ok(constants)
}

/// The constants with these names, where the meaning is one of a word.
fn constants_by(
    names: &[Identifier],
    alloc: Global,
    meaning: &Meaning,
) -> Result<Constants, OutOfMemory>
    ensures { IfOk result (λ made. map plain_constant made ≡ spec.constants_by names.now (words.meaning meaning.now)) }
{
    match meaning {
        Meaning::Constant(kind, value) => named_constants(names, alloc, kind, *value),
        _ => Ok(List::new(alloc)),
    }
}

#[tactic(auto, unfolding(crate::specs::Forms::constant_named))]
fn constant_named<P: Phrases>(
    x: &Expr,
    checker: &Checker<P>,
    around: &Around<'_>,
    state: &mut State,
    kind: TypeTree,
) -> Result<Meaning, CheckFault>
    requires { P.ask checker.now.phrases }
    ensures { Gives words.meaning (form.constant_named (words.around around.now) (plain kind) (syntax.expr x.now) (words.state state.old)) result (words.state state.new) }
{
    let start = first(x);
    let inner = around.in_constant(start);
    let value = checker.check(x, &inner, state, Aim::Into(&kind, start));
    let (kind, value) = both(kind, value)?;
    let meaning = constant_meaning(x, checker.alloc, around, &kind, start, &value.value);
    (kind, value).let_go();
    meaning
}

#[tactic(auto, unfolding(crate::specs::Forms::constant_names))]
fn constant_names<P: Phrases>(
    e: &TypeExp,
    x: &Expr,
    checker: &Checker<P>,
    around: &Around<'_>,
    state: &mut State,
    names: &[Identifier],
) -> Result<AllDefined, CheckFault>
    requires { P.ask checker.now.phrases }
    ensures { Gives view.defined (form.constant_names (words.around around.now) names.now (syntax.type_exp e.now) (syntax.expr x.now) (words.state state.old)) result (words.state state.new) }
{
    let alloc = checker.alloc;
    let kind = type_exp(e, checker, around, state)?;
    let meaning = constant_named(x, checker, around, state, kind)?;
    let constants = constants_by(names, alloc, &meaning)?;
    state.settle(alloc, names, &meaning)?;
    Ok(AllDefined {
        items: List::new(alloc),
        constants,
        types: List::new(alloc),
    })
}

/// What the names are declared to be, once they are announced.
#[tactic(auto, using(crate::proofs::DefinedLaws::defined_forms))]
fn defined<P: Phrases>(
    d: &Defined,
    checker: &Checker<P>,
    around: &Around<'_>,
    state: &mut State,
    names: &[Identifier],
) -> Result<AllDefined, CheckFault>
    requires { P.ask checker.now.phrases }
    ensures { Gives view.defined (spec.defined (words.around around.now) names.now (syntax.defined d.now) (words.state state.old)) result (words.state state.new) }
{
    match d {
        Defined::ProcedureItem(head) => item(
            &head.takes,
            &head.gives,
            checker,
            around,
            state,
            ItemKind::Procedure,
            names,
        ),
        Defined::SignalItem(head) => item(
            &head.takes,
            &head.gives,
            checker,
            around,
            state,
            ItemKind::Signal,
            names,
        ),
        Defined::ErrorItem(takes) => {
            item(takes, &None, checker, around, state, ItemKind::Error, names)
        }
        Defined::TypeItem(e) => type_names(e, checker, around, state, names),
        Defined::ConstantItem(e, x) => constant_names(e, x, checker, around, state, names),
    }
}

#[tactic(auto, unfolding(crate::specs::Forms::announced))]
fn announced<P: Phrases>(
    d: &Defined,
    checker: &Checker<P>,
    around: &Around<'_>,
    state: &mut State,
    names: &[Identifier],
) -> Result<AllDefined, CheckFault>
    requires { P.ask checker.now.phrases }
    ensures { Gives view.defined (form.announced (words.around around.now) names.now (syntax.defined d.now) (words.state state.old)) result (words.state state.new) }
{
    state.announce(checker.alloc, names)?;
    defined(d, checker, around, state, names)
}

/// What a declaration of an interface declares. Its names must be new, and the operands in it have few words.
pub(crate) fn definition<P: Phrases>(
    d: &Labeled<Identifiers, Defined>,
    checker: &Checker<P>,
    around: &Around<'_>,
    state: &mut State,
) -> Result<AllDefined, CheckFault>
    requires { P.ask checker.now.phrases }
    ensures { Gives view.defined (spec.definition (words.around around.now) (syntax.definition d.now) (words.state state.old)) result (words.state state.new) }
{
    let names = d.labels.as_slice();
    let outside = state.count_from(0);
    let made = announced(&d.item, checker, around, state, names)?;
    let words = state.count_from(outside);
    few_operands(0, words, first_name(names))?;
    Ok(made)
}
