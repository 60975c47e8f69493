//! Types as they are written, part by part.
ghost use Rattle.std.specs.Prelude.{[]};
ghost use Rattle.syntax_trees.specs.PlainSyntax as syntax;
ghost use Rattle.check_rules.specs.Checking as spec;
ghost use Rattle.interface_records.specs.PlainTypes.{plain};
ghost use Rattle.check_state.specs.Gives.{Gives};
ghost use Rattle.check_state.specs.Views as words;

use crate::fields::{and_fields, unnamed_field};
use crate::intervals::{first_of_type, ranged};
use crate::made_types::{array_of, enumeration, record_of};
use check_declared::different;
use check_expressions::{Checker, Phrases};
use check_rules::{Cause, CheckFault};
use check_scopes::Names;
use check_state::{Around, State, type_named};
use check_types::{is_index, limited};
use held_trees::{LetGo, both, pushed};
use mesa_base::{Identifiers, List};
use mesa_types::{Fields, TypeTree};
use syntax_trees::syntax::{FieldList, Labeled, TypeExp};

/// The type that is written.
#[cycle(types)]
#[tactic(auto, using(syntax_trees::proofs::PlainForms::type_exp_forms, check_state::proofs::TypeForms::type_forms, crate::proofs::Clauses::clauses))]
pub fn type_exp<P: Phrases>(
    e: &TypeExp,
    checker: &Checker<P>,
    around: &Around<'_>,
    state: &mut State,
) -> Result<TypeTree, CheckFault>
    requires { P.ask checker.now.phrases }
    ensures { Gives plain (spec.type_exp (words.around around.now) (syntax.type_exp e.now) (words.state state.old)) result (words.state state.new) }
{
    match e {
        TypeExp::Integer(_) => Ok(TypeTree::Integer),
        TypeExp::Cardinal(_) => Ok(TypeTree::Cardinal),
        TypeExp::LongInteger(_) => Ok(TypeTree::LongInteger),
        TypeExp::LongCardinal(_) => Ok(TypeTree::LongCardinal),
        TypeExp::Boolean(_) => Ok(TypeTree::Boolean),
        TypeExp::Character(_) => Ok(TypeTree::Character),
        TypeExp::String(_) => Ok(TypeTree::String),
        TypeExp::Called(name) => type_named(checker.alloc, around, state, name),
        TypeExp::Enumeration(place, elements) => {
            enumeration(elements.as_slice(), *place, checker.alloc, around, state)
        }
        TypeExp::Subrange(base, interval) => ranged(interval, checker, around, state, base),
        TypeExp::Array(place, index, element) => {
            let kind = type_exp(index.get(), checker, around, state)?;
            if !is_index(&kind) {
                kind.let_go();
                return Err(CheckFault::At(Cause::TypeMismatch, first_of_type(index.get())));
            }
            let (kind, element) = both(kind, type_exp(element.get(), checker, around, state))?;
            limited(*place, array_of(checker.alloc, kind, element)?)
        }
        TypeExp::Record(place, fields) => {
            let fields = fields_of(fields, checker, around, state)?;
            limited(*place, record_of(*place, checker.alloc, around, fields)?)
        }
    }
}

/// The fields of a record. No name stands twice.
#[cycle(types)]
#[tactic(auto, using(syntax_trees::proofs::PlainForms::field_list_forms, crate::proofs::Clauses::named_is, crate::proofs::Clauses::unnamed_is))]
pub fn fields_of<P: Phrases>(
    fields: &FieldList,
    checker: &Checker<P>,
    around: &Around<'_>,
    state: &mut State,
) -> Result<Fields, CheckFault>
    requires { P.ask checker.now.phrases }
    ensures { Gives words.fields (spec.fields_of (words.around around.now) (syntax.field_list fields.now) (words.state state.old)) result (words.state state.new) }
{
    match fields {
        FieldList::WithNames(all) => named_fields(all.as_slice(), checker, around, state),
        FieldList::Unnamed(all) => unnamed_fields(all.as_slice(), checker, around, state),
    }
}

#[cycle(types)]
fn named_fields<P: Phrases>(
    all: &[Labeled<Identifiers, TypeExp>],
    checker: &Checker<P>,
    around: &Around<'_>,
    state: &mut State,
) -> Result<Fields, CheckFault>
    requires { P.ask checker.now.phrases }
    ensures { Gives words.fields (spec.named_fields (words.around around.now) [] (syntax.named_fields all.now) (words.state state.old)) result (words.state state.new) }
{
    let alloc = checker.alloc;
    let mut taken = Names::new(alloc);
    let mut done = List::new(alloc);
    for one in all {
        let names = one.labels.as_slice();
        let (held, _) = both(done, different(names, alloc, &mut taken))?;
        let (held, kind) = both(held, type_exp(&one.item, checker, around, state))?;
        done = and_fields(names, alloc, kind, held)?;
    }
    Ok(done)
}

/// Fields, parameters or results without names.
#[cycle(types)]
pub fn unnamed_fields<P: Phrases>(
    all: &[TypeExp],
    checker: &Checker<P>,
    around: &Around<'_>,
    state: &mut State,
) -> Result<Fields, CheckFault>
    requires { P.ask checker.now.phrases }
    ensures { Gives words.fields (spec.unnamed_fields (words.around around.now) (syntax.types all.now) (words.state state.old)) result (words.state state.new) }
{
    let mut done = List::new(checker.alloc);
    for one in all {
        let (held, kind) = both(done, type_exp(one, checker, around, state))?;
        done = pushed(held, unnamed_field(kind))?;
    }
    Ok(done)
}
