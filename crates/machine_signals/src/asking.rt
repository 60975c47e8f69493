//! Which phrase a signal or a jump asks first where an activation waits, and what the table of one says.

ghost use Rattle.std.specs.Prelude.{◌≡◌, ◌<◌, ◌^◌, length, false, true, Some, IsSome};
ghost use Rattle.std.specs.List.{list_any};
ghost use Rattle.code_forms.specs.Phrases.{PhrasesFill};
ghost use Rattle.code_forms.specs.Routine.{code_end, spots};
ghost use Rattle.code_forms.specs.declared.module_code.CodeProcedure.{CodeProcedure};
ghost use Rattle.machine_rules.specs.LookUps.{links_of, procedure_of};
ghost use Rattle.signaller.specs.Search.{around, covers, first_of, has, innermost_of, next_arm, search_at, unwind_next};
ghost use Rattle.signaller.specs.Sought.{passed};
ghost use Rattle.machine_activations.specs.Shows.{IsPrepared};
ghost use Rattle.machine_signals.specs.Indexed.{AreTables, AskedOf, BeginsThere, IsRead};

use crate::lookups::{plan_of, procedure_at};
use code_forms::{Arm, CodeProcedure, Phrase};
use machine_activations::{Layout, Row};
use machine_ready::Tables;
use object_files::Image;
use signaller::{Found, Search, SignalId, next_arm, unwind_next};

fn covers(phrase: &Phrase, offset: u32) -> bool
    ensures { result ≡ covers phrase.now offset }
{
    phrase.from <= offset && offset < phrase.to
}

fn has(arm: &Arm, offset: u32) -> bool
    ensures { result ≡ has arm.now offset }
{
    arm.start <= offset && offset < arm.end
}

#[tactic(auto, using(signaller::proofs::Asking::any_more, signaller::proofs::Asking::any_here, signaller::proofs::Asking::any_end))]
fn one_has(arms: &[Arm], offset: u32) -> bool
    ensures { result ≡ list_any (λ a. has a offset) arms.now }
{
    for i in 0..arms.len() {
        if has(&arms[i], offset) {
            return true;
        }
    }
    false
}

// The offset about which the phrases before this one are asked, where it is not enabled: outward of an arm.
fn passed(phrase: &Phrase, offset: u32) -> u32
    ensures { result ≡ passed true phrase.now offset }
{
    if one_has(phrase.arms.as_slice(), offset) {
        return phrase.from;
    }
    offset
}

// The first of the phrases that a signal asks about an offset.
fn first_around(table: &[Phrase], offset: u32) -> Option<u32>
    requires few { length table.now < 2 ^ 32 }
    ensures { result ≡ first_of (around true table.now (length table.now) offset) }
{
    let count = table.len();
    let mut about = offset;
    for back in 0..count {
        let number = count - 1 - back;
        let phrase = &table[number];
        if covers(phrase, about) {
            return Some(number as u32);
        }
        about = passed(phrase, about);
    }
    None
}

// The search of a signal that begins at an offset of a procedure, whose innermost phrase there this is: with that phrase, or,
// where no phrase is enabled there, outward of the arm in whose region it is.
#[inline(always)]
fn search_about(procedure: &CodeProcedure, innermost: Option<u32>, offset: u32) -> Search
    requires phrases { PhrasesFill (spots procedure.now.code) procedure.now.phrases }
    requires innermost { innermost ≡ innermost_of procedure.now.phrases offset }
    requires few { length procedure.now.phrases < 2 ^ 32 }
    requires inside { offset < code_end (spots procedure.now.code) }
    ensures { result ≡ search_at true procedure.now.phrases offset }
{
    if let Some(number) = innermost {
        return Search {
            phrase: Some(number),
        };
    }
    Search {
        phrase: first_around(procedure.phrases.as_slice(), offset),
    }
}

/// The search of a signal that begins where the activation of a row waits.
#[inline(always)]
pub(crate) fn around(image: &Image, tables: &Tables, row: Row, layout: Layout) -> Search
    requires tables { AreTables image.now layout tables.now }
    requires read { IsRead image.now row }
    ensures begins { BeginsThere image.now true row result }
    ensures asks { AskedOf image.now row result }
{
    let procedure = procedure_at(image, row.instance, row.procedure);
    let plan = plan_of(image, &tables.plans, row.instance, row.procedure);
    let offset = procedure.code.as_slice()[row.entry].at;
    let innermost = plan.innermost.as_slice()[row.entry];
    search_about(procedure, innermost, offset)
}

/// The search of a jump that begins in the region where the activation of a row waits: with the innermost phrase, if one is
/// enabled there.
pub(crate) fn around_within(image: &Image, tables: &Tables, row: Row, layout: Layout) -> Search
    requires tables { AreTables image.now layout tables.now }
    requires read { IsRead image.now row }
    ensures begins { BeginsThere image.now false row result }
    ensures asks { AskedOf image.now row result }
{
    let plan = plan_of(image, &tables.plans, row.instance, row.procedure);
    Search {
        phrase: plan.innermost.as_slice()[row.entry],
    }
}

/// What the table of the activation of a row says to a signal, from a search on.
#[inline(always)]
pub(crate) fn ask(
    image: &Image,
    tables: &Tables,
    row: Row,
    layout: Layout,
    search: Search,
    signal: SignalId,
) -> Found
    requires tables { AreTables image.now layout tables.now }
    requires read { IsRead image.now row }
    requires asks { AskedOf image.now row search }
    ensures { (p : CodeProcedure) → procedure_of image.now row.instance row.procedure ≡ Some p
        → result ≡ next_arm p.phrases search (links_of image.now row.instance) signal }
{
    if search.phrase.is_none() {
        return Found::Beyond;
    }
    let procedure = procedure_at(image, row.instance, row.procedure);
    let own = &tables.links.as_slice()[row.instance as usize];
    next_arm(&procedure.phrases, search, own, &signal)
}

/// What the table of the activation of a row says to the passing of a jump, from a search on.
pub(crate) fn ask_unwind(image: &Image, row: Row, layout: Layout, search: Search) -> Found
    requires prepared { IsPrepared image.now layout }
    requires read { IsRead image.now row }
    requires asks { AskedOf image.now row search }
    ensures { (p : CodeProcedure) → procedure_of image.now row.instance row.procedure ≡ Some p
        → result ≡ unwind_next p.phrases search }
{
    let procedure = procedure_at(image, row.instance, row.procedure);
    unwind_next(&procedure.phrases, search)
}
