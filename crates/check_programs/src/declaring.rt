//! One declaration: its head.
ghost use Rattle.std.specs.Prelude.{◌≡◌, ◌+◌, [], ◌∷◌, ◌++◌, map, IfOk, OnOk};
ghost use Rattle.check_programs.specs.Found.{also};
ghost use Rattle.check_programs.specs.Heads.{first_item as first_rule};
ghost use Rattle.check_programs.specs.Steps as step;
ghost use Rattle.check_programs.specs.Views as view;
ghost use Rattle.check_state.specs.Gives.{Gives, GivesOnly};
ghost use Rattle.check_state.specs.Views as words;
ghost use Rattle.check_rules.specs.Meanings as meaning;
ghost use Rattle.check_rules.specs.Names.{settle};
ghost use Rattle.interface_records.specs.PlainTypes.{plain_item};
ghost use Rattle.check_rules.specs.Programs as spec;
ghost use Rattle.check_rules.specs.Typed as t;
ghost use Rattle.mesa_types.specs.declared.faces.ItemKind.TheVariants as kinds;
ghost use Rattle.syntax_trees.specs.PlainSyntax as plain;
ghost use Rattle.check_heads.specs.Views.{heading as plain_heading};

use crate::catches::Catches;
use crate::found::{Found, Numbers, ProcedureHead, Stated};
use crate::offers::{procedure_offers, signal_offers};
use crate::signals::{first_item, renamed_all, settle_signals};
use check_heads::{Heading, heading};
use check_rules::{Cause, CheckFault};
use check_state::{Around, Meaning, State, next, words_of_fields};
use check_statement_lists::check_declared::{few_operands, first_name};
use check_statement_lists::check_expressions::Checker;
use check_statements::check_locals::head;
use mesa_base::limits::SIGNAL_WORDS;
use mesa_base::{Identifier, List, OutOfMemory, Place, Shared};
use mesa_types::{Callee, Item, ItemKind};
use std::alloc::Global;
use syntax_trees::syntax::{Access, Declaration, Declared, FieldList, Head, PlainItem};

/// A type, variables or a constant.
#[tactic(auto, using(crate::proofs::FoundLaws::data_more))]
fn data(
    one: &Declaration,
    item: &PlainItem,
    checker: &Checker<Catches>,
    around: &Around<'_>,
    state: &mut State,
    found: &mut Found,
) -> Result<(), CheckFault>
    ensures { Gives (λ _. view.found found.new) (also (view.found found.old) (step.data_declared (words.around around.now) one.now.names (plain.plain_item item.now)) (words.state state.old)) result (words.state state.new) }
{
    let headed = head(checker, item, around, state, one.names.as_slice())?;
    found.heads.push_back(Stated::Data(headed))?;
    Ok(())
}

/// The head of a procedure under the first of its names, with the words of operands that were counted in it.
fn procedure_head(
    names: &[Identifier],
    alloc: Global,
    head: Heading,
    operands: u64,
) -> Result<ProcedureHead, OutOfMemory>
    ensures item { IfOk result (λ made. plain_item made.item ≡ first_rule kinds.Procedure (plain_heading head).takes (plain_heading head).gives names.now) }
    ensures scope { IfOk result (λ made. words.names made.scope ≡ (plain_heading head).scope) }
    ensures operands { IfOk result (λ made. made.operands ≡ operands) }
{
    let Heading {
        takes,
        gives,
        scope,
    } = head;
    let item = first_item(names, alloc, ItemKind::Procedure, takes, gives)?;
    let item = Shared::new(alloc, item)?;
    Ok(ProcedureHead {
        item,
        scope,
        operands,
    })
}

/// Each name means the procedure of this number from here on.
fn settle_procedure(
    names: &[Identifier],
    alloc: Global,
    number: u32,
    item: &Shared<Item>,
    state: &mut State,
) -> Result<(), CheckFault>
    ensures { Gives (λ _. tt) (settle names.now (map (λ x. meaning.Procedure (t.OwnProcedure number) (plain_item item.now)) names.now) (words.state state.old)) result (words.state state.new) }
{
    let meaning = Meaning::Procedure(Callee::OwnProcedure(number), item.share()?);
    state.settle(alloc, names, &meaning)
}

/// A procedure more.
fn also_procedure(head: ProcedureHead, found: &mut Found) -> Result<(), OutOfMemory>
    ensures { OnOk result (view.found found.new ≡ record (view.found found.old) { heads = (view.found found.old).heads ++ spec.ProcedureHead (plain_item head.item) (words.names head.scope) head.operands ∷ []; procedures = (view.found found.old).procedures + 1 }) }
{
    found.procedures = next(found.procedures)?;
    found.heads.push_back(Stated::Procedure(head))?;
    Ok(())
}

/// A procedure whose head is read, with the words of operands that were counted in it.
#[tactic(auto, using(crate::proofs::FoundLaws::procedure_more, crate::proofs::ItemLaws::procedure_is))]
fn declared_procedure(
    one: &Declaration,
    head: Heading,
    operands: u64,
    alloc: Global,
    state: &mut State,
    number: u32,
    found: &mut Found,
) -> Result<(), CheckFault>
    ensures { Gives (λ _. view.found found.new) (also (view.found found.old) (spec.declared_procedure one.now.names one.now.access number (plain_heading head, operands)) (words.state state.old)) result (words.state state.new) }
{
    let names = one.names.as_slice();
    let head = procedure_head(names, alloc, head, operands)?;
    settle_procedure(names, alloc, number, &head.item, state)?;
    procedure_offers(
        names,
        alloc,
        one.access,
        number,
        &head.item,
        &mut found.offers,
    )?;
    also_procedure(head, found)?;
    Ok(())
}

/// A procedure.
fn procedure(
    one: &Declaration,
    head: &Head,
    checker: &Checker<Catches>,
    around: &Around<'_>,
    state: &mut State,
    number: u32,
    found: &mut Found,
) -> Result<(), CheckFault>
    ensures { Gives (λ _. view.found found.new) (also (view.found found.old) (step.procedure_declared (words.around around.now) number one.now.names one.now.access (plain.head head.now)) (words.state state.old)) result (words.state state.new) }
{
    state.announce(checker.alloc, one.names.as_slice())?;
    let outside = state.count_from(0);
    let head = heading(&head.takes, &head.gives, checker, around, state)?;
    let operands = state.count_from(outside);
    declared_procedure(one, head, operands, checker.alloc, state, number, found)
}

/// The words of the parameters and results of a signal or an error are limited.
fn few_signal_words(head: &Heading, place: Place) -> Result<(), CheckFault>
    ensures { GivesOnly (λ _. tt) (step.few_signal_words (plain_heading head.now) place) result }
{
    let takes = words_of_fields(head.takes.as_slice());
    let gives = words_of_fields(head.gives.as_slice());
    if u64::from(takes) + u64::from(gives) <= u64::from(SIGNAL_WORDS) {
        Ok(())
    } else {
        Err(CheckFault::At(Cause::FrameTooLarge, place))
    }
}

/// Signals or errors more.
fn also_signals(items: List<Shared<Item>>, found: &mut Found) -> Result<(), OutOfMemory>
    ensures { OnOk result (view.found found.new ≡ record (view.found found.old) { heads = (view.found found.old).heads ++ spec.SignalHead ∷ []; signals = (view.found found.old).signals ++ map plain_item items }) }
{
    found.heads.push_back(Stated::Signal)?;
    found.signals.append(items)?;
    Ok(())
}

/// Signals or errors whose head is read.
#[tactic(auto, using(crate::proofs::FoundLaws::signals_more, crate::proofs::ItemLaws::renamed_are))]
fn declared_signals(
    one: &Declaration,
    kind: ItemKind,
    head: Heading,
    alloc: Global,
    state: &mut State,
    number: u32,
    found: &mut Found,
) -> Result<(), CheckFault>
    ensures { Gives (λ _. view.found found.new) (also (view.found found.old) (spec.declared_signals kind one.now.names one.now.access number (plain_heading head)) (words.state state.old)) result (words.state state.new) }
{
    let names = one.names.as_slice();
    few_signal_words(&head, first_name(names))?;
    let Heading {
        takes,
        gives,
        scope: _,
    } = head;
    let head = first_item(names, alloc, kind, takes, gives)?;
    let items = renamed_all(names, alloc, &head)?;
    let all = items.as_slice();
    settle_signals(names, alloc, number, all, state)?;
    signal_offers(names, alloc, one.access, number, all, &mut found.offers)?;
    also_signals(items, found)?;
    Ok(())
}

/// A signal or an error.
fn signals(
    one: &Declaration,
    kind: ItemKind,
    takes: &Option<FieldList>,
    gives: &Option<FieldList>,
    checker: &Checker<Catches>,
    around: &Around<'_>,
    state: &mut State,
    number: u32,
    found: &mut Found,
) -> Result<(), CheckFault>
    ensures { Gives (λ _. view.found found.new) (also (view.found found.old) (step.signals_declared (words.around around.now) number one.now.names one.now.access kind (plain.maybe_fields takes.now) (plain.maybe_fields gives.now)) (words.state state.old)) result (words.state state.new) }
{
    let outside = state.count_from(0);
    state.announce(checker.alloc, one.names.as_slice())?;
    let head = heading(takes, gives, checker, around, state)?;
    declared_signals(one, kind, head, checker.alloc, state, number, found)?;
    let words = state.count_from(outside);
    few_operands(0, words, first_name(one.names.as_slice()))
}

/// One declaration, whose procedure or first signal has the number that is next.
#[tactic(auto, unfolding(check_rules::specs::Programs::declared))]
pub fn declaration(
    one: &Declaration,
    checker: &Checker<Catches>,
    around: &Around<'_>,
    state: &mut State,
    numbers: Numbers,
    found: &mut Found,
) -> Result<(), CheckFault>
    ensures { Gives (λ _. view.found found.new) (also (view.found found.old) (spec.declaration numbers.procedure numbers.signal (words.around around.now) (plain.declaration one.now)) (words.state state.old)) result (words.state state.new) }
{
    match &one.declared {
        Declared::Data(item) => data(one, item, checker, around, state, found),
        Declared::Procedure(head, _) => {
            procedure(one, head, checker, around, state, numbers.procedure, found)
        }
        Declared::Signal(head) => signals(
            one,
            ItemKind::Signal,
            &head.takes,
            &head.gives,
            checker,
            around,
            state,
            numbers.signal,
            found,
        ),
        Declared::Error(takes) => signals(
            one,
            ItemKind::Error,
            takes,
            &None,
            checker,
            around,
            state,
            numbers.signal,
            found,
        ),
    }
}
