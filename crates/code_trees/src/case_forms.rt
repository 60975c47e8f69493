//! IF and SELECT by what their parts are.
ghost use Rattle.std.specs.Prelude.{◌≡◌, ◌+◌, ◌≤◌, [], ◌∷◌, ◌++◌, not, IfOk};
ghost use Rattle.mesa_types.specs.Counts.{words_before};
ghost use Rattle.mesa_types.specs.Operators.{differ};
ghost use Rattle.mesa_types.specs.Plain.{interval, stmt};
ghost use Rattle.code_blocks.specs.Blocks as tree;
ghost use Rattle.code_blocks.specs.Translation as spec;
ghost use Rattle.code_rules.specs.OwnCode.{check_code, conversion_code, pop_code};
ghost use Rattle.code_rules.specs.Reading.{scratch};
ghost use Rattle.code_forms.specs.declared.instruction.Instruction.TheVariants as i;
ghost use Rattle.code_trees.specs.Excess.{excess, excess_in};
ghost use Rattle.code_trees.specs.Forms.{held_words, if_last, if_of, is_null, long_related_of, long_within_test_of, past_if, related_of, select_of, within_test_of};
ghost use Rattle.code_trees.specs.Plain.{plain, plain_blocks};
ghost use Rattle.code_trees.specs.Routines.{coded};

use crate::block::{Code, Leap, Mark};
use crate::check_code::put_check;
use crate::conditions::{where_long_related, where_related};
use crate::exit_forms::past_if;
use crate::long_code::put_conversion;
use crate::making::{closed, does, ends, out, pair, then};
use crate::own_code;
use crate::part::{Part, Row};
use crate::routine::Routine;
use crate::stack_code::put_pop;
use code_forms::Instruction;
use held_trees::{LetGo, both};
use mesa_base::{List, OutOfMemory, Relation};
use mesa_types::{Base, Bases, Conversion, Interval, Range, TypedStmt};
use std::alloc::Global;

pub fn is_null(s: &TypedStmt) -> bool
    ensures { result ≡ is_null (stmt s.now) }
{
    match s {
        TypedStmt::Null => true,
        TypedStmt::Marked(_, _)
        | TypedStmt::Declare(_, _)
        | TypedStmt::DeclareAs(_, _, _)
        | TypedStmt::Assign(_, _, _)
        | TypedStmt::Extract(_, _, _)
        | TypedStmt::Perform(_)
        | TypedStmt::If(_, _, _)
        | TypedStmt::Select(_, _, _)
        | TypedStmt::SelectLong(_, _, _)
        | TypedStmt::Block(_, _, _)
        | TypedStmt::Repeat(_)
        | TypedStmt::For(_, _, _, _, _)
        | TypedStmt::Jump(_, _)
        | TypedStmt::ReturnWith(_, _, _, _)
        | TypedStmt::Resume(_, _)
        | TypedStmt::Reject
        | TypedStmt::Retry(_)
        | TypedStmt::Continue(_) => false,
    }
}

/// In how many words the selector of a SELECT is held.
pub fn held_words(s: &TypedStmt) -> u16
    ensures { result ≡ held_words (stmt s.now) }
{
    match s {
        TypedStmt::SelectLong(_, _, _) => 2,
        TypedStmt::Null
        | TypedStmt::Marked(_, _)
        | TypedStmt::Declare(_, _)
        | TypedStmt::DeclareAs(_, _, _)
        | TypedStmt::Assign(_, _, _)
        | TypedStmt::Extract(_, _, _)
        | TypedStmt::Perform(_)
        | TypedStmt::If(_, _, _)
        | TypedStmt::Select(_, _, _)
        | TypedStmt::Block(_, _, _)
        | TypedStmt::Repeat(_)
        | TypedStmt::For(_, _, _, _, _)
        | TypedStmt::Jump(_, _)
        | TypedStmt::ReturnWith(_, _, _, _)
        | TypedStmt::Resume(_, _)
        | TypedStmt::Reject
        | TypedStmt::Retry(_)
        | TypedStmt::Continue(_) => 1,
    }
}

/// A jump out where the condition fails, the statement, and the other one, past which the first jumps where it is to.
#[tactic(auto, unfolding(crate::specs::Excess::excess))]
pub fn branches(
    alloc: Global,
    test: Part,
    statement: Part,
    jumps: bool,
    otherwise: Part,
) -> Result<Part, OutOfMemory>
    requires { excess (if_of (plain test.block) (plain statement.block) (past_if jumps 1) (plain otherwise.block)) ≡ 0 }
    ensures { IfOk result (λ made. plain made.block ≡ if_of (plain test.block) (plain statement.block) (past_if jumps 1) (plain otherwise.block)) }
{
    let (otherwise, made) = both(otherwise, first_branch(alloc, test, statement, jumps))?;
    let made = pair(alloc, made, otherwise)?;
    ends(alloc, Mark::Here(0), made)
}

#[tactic(auto, unfolding(crate::specs::Excess::excess))]
fn first_branch(
    alloc: Global,
    test: Part,
    statement: Part,
    jumps: bool,
) -> Result<Part, OutOfMemory>
    requires { excess (tree.Both (plain test.block) (tree.Both (plain statement.block) (past_if jumps 1))) ≡ 0 }
    ensures { IfOk result (λ made. plain made.block ≡ tree.Ends (tree.Here 0) (tree.Both (plain test.block) (tree.Both (plain statement.block) (past_if jumps 1)))) }
{
    let (test, statement) = both(test, pair(alloc, statement, past_if(alloc, jumps, 1)))?;
    let made = pair(alloc, test, statement)?;
    ends(alloc, Mark::Here(0), made)
}

/// The tests of a case and its statement.
#[tactic(auto, unfolding(crate::specs::Excess::excess))]
pub fn tested(alloc: Global, tests: Part, statement: Part, jumps: bool) -> Result<Part, OutOfMemory>
    requires { excess (spec.a_case (plain tests.block) (plain statement.block) (past_if jumps 1)) ≡ 0 }
    ensures { IfOk result (λ made. plain made.block ≡ spec.a_case (plain tests.block) (plain statement.block) (past_if jumps 1)) }
{
    let (statement, tests) = both(statement, ends(alloc, Mark::Here(0), tests))?;
    first_branch(alloc, tests, statement, jumps)
}

/// The selector comes back from its slot, and is checked.
fn selector_code(alloc: Global, slot: u16, range: Range) -> Result<Code, OutOfMemory>
    ensures { IfOk result (λ code. code ≡ i.LoadL slot 1 ∷ check_code range) }
{
    let mut code = List::of(alloc, Instruction::LoadL { slot, words: 1 })?;
    put_check(&mut code, range)?;
    Ok(code)
}

/// The words of the number that a conversion takes.
#[tactic(auto, unfolding(mesa_types::specs::Counts::words_before))]
fn words_taken(conversion: Conversion) -> u16
    ensures { result ≡ words_before conversion }
{
    match conversion {
        Conversion::Kept | Conversion::Narrowed(_, _, _) | Conversion::InCommon => 2,
        Conversion::Widened(_, _) => 1,
    }
}

/// The selector comes back from its slot, or from that and the next, and becomes LONG.
fn long_selector_code(alloc: Global, slot: u16, how: Conversion) -> Result<Code, OutOfMemory>
    ensures { IfOk result (λ code. code ≡ i.LoadL slot (words_before how) ∷ conversion_code how) }
{
    let words = words_taken(how);
    let mut code = List::of(alloc, Instruction::LoadL { slot, words })?;
    put_conversion(&mut code, how)?;
    Ok(code)
}

/// To which part around a test leads: the last one leads past the case where it fails.
fn part_of(last: bool) -> u32
    ensures { result ≡ if_last last }
{
    if last { 1 } else { 0 }
}

/// A test of the selector by a relation.
#[tactic(auto, unfolding(crate::specs::Excess::excess))]
pub fn related(
    alloc: Global,
    slot: u16,
    range: Range,
    base: Base,
    relation: Relation,
    last: bool,
    of: Part,
) -> Result<Part, OutOfMemory>
    requires { excess (related_of slot range base relation last (plain of.block)) ≡ 0 }
    ensures { IfOk result (λ made. plain made.block ≡ related_of slot range base relation last (plain of.block)) }
{
    let (of, leap) = both(
        of,
        where_related(alloc, base, relation, !last, part_of(last)),
    )?;
    let made = pair(alloc, of, leap)?;
    let (made, code) = both(made, selector_code(alloc, slot, range))?;
    pair(alloc, does(code), made)
}

/// A test of the selector by a relation over LONG numbers.
#[tactic(auto, unfolding(crate::specs::Excess::excess))]
pub fn long_related(
    alloc: Global,
    slot: u16,
    how: Conversion,
    base: Base,
    relation: Relation,
    last: bool,
    of: Part,
) -> Result<Part, OutOfMemory>
    requires { excess (long_related_of slot how base relation last (plain of.block)) ≡ 0 }
    ensures { IfOk result (λ made. plain made.block ≡ long_related_of slot how base relation last (plain of.block)) }
{
    let (of, leap) = both(
        of,
        where_long_related(alloc, base, relation, !last, part_of(last)),
    )?;
    let made = pair(alloc, of, leap)?;
    let (made, code) = both(made, long_selector_code(alloc, slot, how))?;
    pair(alloc, does(code), made)
}

#[tactic(auto, using(crate::proofs::IntervalLaws::within_of_is))]
fn within_code(
    alloc: Global,
    routine: &Routine,
    slot: u16,
    bases: Bases,
    range: &Interval,
) -> Result<(Code, Code), OutOfMemory>
    requires { excess_in (spec.within_of (scratch (coded routine.now)) bases (interval range.now)) ≡ 0 }
    ensures first { IfOk result (λ made. made.0 ≡ i.LoadL slot 1 ∷ []) }
    ensures last { IfOk result (λ made. made.1 ≡ spec.within_of (scratch (coded routine.now)) bases (interval range.now)) }
{
    let first = List::of(alloc, Instruction::LoadL { slot, words: 1 })?;
    let last = own_code::within(
        alloc,
        routine,
        bases,
        range.first_is_open,
        range.last_is_open,
    )?;
    Ok((first, last))
}

#[tactic(auto, using(crate::proofs::IntervalLaws::long_within_of_is))]
fn long_within_code(
    alloc: Global,
    routine: &Routine,
    slot: u16,
    how: Conversion,
    bases: Bases,
    range: &Interval,
) -> Result<(Code, Code), OutOfMemory>
    requires { excess_in (spec.long_within_of (scratch (coded routine.now)) bases (interval range.now)) ≡ 0 }
    ensures first { IfOk result (λ made. made.0 ≡ i.LoadL slot (words_before how) ∷ conversion_code how) }
    ensures last { IfOk result (λ made. made.1 ≡ spec.long_within_of (scratch (coded routine.now)) bases (interval range.now)) }
{
    let first = long_selector_code(alloc, slot, how)?;
    let last = own_code::long_within(
        alloc,
        routine,
        bases,
        range.first_is_open,
        range.last_is_open,
    )?;
    Ok((first, last))
}

/// Whether a test leads away where the number lies in the interval, or where it does not.
#[tactic(auto, unfolding(mesa_types::specs::Operators::differ))]
fn leaps_where(negated: bool, last: bool) -> bool
    ensures { result ≡ differ negated (not last) }
{
    negated == last
}

/// A test whether the selector lies within an interval.
#[tactic(auto, unfolding(crate::specs::Excess::excess))]
pub fn within(
    alloc: Global,
    routine: &Routine,
    slot: u16,
    negated: bool,
    bases: Bases,
    range: &Interval,
    last: bool,
    bounds: Part,
) -> Result<Part, OutOfMemory>
    requires { excess (within_test_of (coded routine.now) slot negated bases (interval range.now) last (plain bounds.block)) ≡ 0 }
    ensures { IfOk result (λ made. plain made.block ≡ within_test_of (coded routine.now) slot negated bases (interval range.now) last (plain bounds.block)) }
{
    let (bounds, (first, code)) = both(bounds, within_code(alloc, routine, slot, bases, range))?;
    let (bounds, leap) = both(
        bounds,
        pair(
            alloc,
            does(code),
            out(Leap::Where(leaps_where(negated, last)), part_of(last)),
        ),
    )?;
    let made = pair(alloc, bounds, leap)?;
    pair(alloc, does(first), made)
}

/// A test whether the selector lies within an interval, over LONG numbers.
#[tactic(auto, unfolding(crate::specs::Excess::excess))]
pub fn long_within(
    alloc: Global,
    routine: &Routine,
    slot: u16,
    negated: bool,
    how: Conversion,
    bases: Bases,
    range: &Interval,
    last: bool,
    bounds: Part,
) -> Result<Part, OutOfMemory>
    requires { excess (long_within_test_of (coded routine.now) slot negated how bases (interval range.now) last (plain bounds.block)) ≡ 0 }
    ensures { IfOk result (λ made. plain made.block ≡ long_within_test_of (coded routine.now) slot negated how bases (interval range.now) last (plain bounds.block)) }
{
    let (bounds, (first, code)) = both(
        bounds,
        long_within_code(alloc, routine, slot, how, bases, range),
    )?;
    let (bounds, leap) = both(
        bounds,
        pair(
            alloc,
            does(code),
            out(Leap::Where(leaps_where(negated, last)), part_of(last)),
        ),
    )?;
    let made = pair(alloc, bounds, leap)?;
    pair(alloc, does(first), made)
}

/// A value that nothing reads.
#[tactic(auto, unfolding(crate::specs::Excess::excess))]
pub fn dropped(alloc: Global, of: Part, words: u64) -> Result<Part, OutOfMemory>
    requires { excess (tree.Both (plain of.block) (tree.Does (pop_code words))) ≡ 0 }
    ensures { IfOk result (λ made. plain made.block ≡ tree.Both (plain of.block) (tree.Does (pop_code words))) }
{
    let mut code = List::new(alloc);
    let (of, ()) = both(of, put_pop(&mut code, words))?;
    then(alloc, of, code)
}

/// A SELECT without cases: the selector is dropped.
#[tactic(auto, unfolding(crate::specs::Excess::excess))]
fn unselected(alloc: Global, words: u64, selector: Part, last: Part) -> Result<Part, OutOfMemory>
    requires { excess (tree.Both (plain selector.block) (tree.Both (tree.Does (pop_code words)) (plain last.block))) ≡ 0 }
    ensures { IfOk result (λ made. plain made.block ≡ tree.Both (plain selector.block) (tree.Both (tree.Does (pop_code words)) (plain last.block))) }
{
    let mut code = List::new(alloc);
    let ((selector, last), ()) = both((selector, last), put_pop(&mut code, words))?;
    let (selector, last) = both(selector, pair(alloc, does(code), last))?;
    pair(alloc, selector, last)
}

/// The selector, which goes to its slots, and the cases with the last one, which has no test; or without cases the last one alone.
#[tactic(auto, unfolding(crate::specs::Excess::excess, crate::specs::Excess::excess_in, crate::specs::Excess::excess_of), using(crate::proofs::RowLaws::size_in_order, crate::proofs::RowFits::row_size))]
pub fn selected(
    alloc: Global,
    slot: u16,
    held: u16,
    words: u64,
    selector: Part,
    none: bool,
    cases: Row,
    last: Part,
) -> Result<Part, OutOfMemory>
    requires { excess (select_of none slot held words (plain selector.block) (plain_blocks cases.blocks) (plain last.block)) ≡ 0 }
    ensures { IfOk result (λ made. plain made.block ≡ select_of none slot held words (plain selector.block) (plain_blocks cases.blocks) (plain last.block)) }
{
    if none {
        cases.let_go();
        unselected(alloc, words, selector, last)
    } else {
        let (selector, cases) = both(selector, closed(alloc, cases, last))?;
        let (selector, cases) = both(selector, ends(alloc, Mark::Here(0), cases))?;
        let ((selector, cases), code) = both(
            (selector, cases),
            List::of(alloc, Instruction::StoreL { slot, words: held }),
        )?;
        let (selector, cases) = both(selector, pair(alloc, does(code), cases))?;
        pair(alloc, selector, cases)
    }
}
