//! What is known of a part, said just before the walk goes down into it: that the part is smaller is then all that is left to see.
ghost use Rattle.std.specs.Prelude.{◌≡◌, ◌+◌, ◌≤◌, [], map};
ghost use Rattle.mesa_base.specs.Chain.{chain};
ghost use Rattle.mesa_types.specs.Counts.{hidden, hidden_arms, hidden_cases, hidden_condition, hidden_exits, hidden_expr, hidden_exprs, hidden_interval, hidden_phrase, hidden_stmts, hidden_suffixes, hidden_targets, hidden_tests};
ghost use Rattle.mesa_types.specs.Plain.{arm, case, condition, exit, expr, exprs, interval, phrase, stmt, stmts, suffix, target, test};
ghost use Rattle.mesa_types.specs.Typed as t;
ghost use Rattle.code_blocks.specs.Blocks as tree;
ghost use Rattle.code_blocks.specs.Translation as spec;
ghost use Rattle.code_trees.specs.Excess.{excess, excess_in_arms};
ghost use Rattle.code_trees.specs.Forms.{case_blocks, exit_blocks, past_if, test_of};
ghost use Rattle.code_trees.specs.Routines.{coded};
ghost use Rattle.code_trees.specs.Rows.{excess_among, sizes_in};

use code_trees::Routine;
use mesa_types::{
    Arm, Case, Condition, Exit, Interval, Phrase, Suffix, Target, Test, TypedExpr, TypedStmt,
};

/// For a value.
pub(crate) fn room_for_value(routine: &Routine, next: u16, e: &TypedExpr)
    requires room { next + hidden_expr (expr e.now) ≤ 65535 }
    requires fits { excess ((spec.forms (coded routine.now) next (expr e.now)).value) ≡ 0 }
    ensures room { next + hidden_expr (expr e.now) ≤ 65535 }
    ensures fits { excess ((spec.forms (coded routine.now) next (expr e.now)).value) ≡ 0 }
{}

/// For a condition.
pub(crate) fn room_for_jump(routine: &Routine, next: u16, e: &TypedExpr, sense: bool, part: u32)
    requires room { next + hidden_expr (expr e.now) ≤ 65535 }
    requires fits { excess ((spec.forms (coded routine.now) next (expr e.now)).jump sense part) ≡ 0 }
    ensures room { next + hidden_expr (expr e.now) ≤ 65535 }
    ensures fits { excess ((spec.forms (coded routine.now) next (expr e.now)).jump sense part) ≡ 0 }
{}

/// For values one behind the other.
pub(crate) fn room_for_values(routine: &Routine, next: u16, es: &[TypedExpr])
    requires room { next + hidden_exprs (exprs (map expr es.now)) ≤ 65535 }
    requires fits { excess (spec.values (coded routine.now) next (exprs (map expr es.now))) ≡ 0 }
    ensures room { next + hidden_exprs (exprs (map expr es.now)) ≤ 65535 }
    ensures fits { excess (spec.values (coded routine.now) next (exprs (map expr es.now))) ≡ 0 }
{}

/// For the bounds of an interval.
pub(crate) fn room_for_bounds(routine: &Routine, next: u16, range: &Interval)
    requires room { next + hidden_interval (interval range.now) ≤ 65535 }
    requires fits { excess (spec.bounds (coded routine.now) next (interval range.now)) ≡ 0 }
    ensures room { next + hidden_interval (interval range.now) ≤ 65535 }
    ensures fits { excess (spec.bounds (coded routine.now) next (interval range.now)) ≡ 0 }
{}

/// For the indices among suffixes.
pub(crate) fn room_for_path(routine: &Routine, next: u16, suffixes: &[Suffix])
    requires room { next + hidden_suffixes (chain (map suffix suffixes.now) t.NoSuffix) ≤ 65535 }
    requires fits { excess (spec.path (coded routine.now) next (chain (map suffix suffixes.now) t.NoSuffix)) ≡ 0 }
    ensures room { next + hidden_suffixes (chain (map suffix suffixes.now) t.NoSuffix) ≤ 65535 }
    ensures fits { excess (spec.path (coded routine.now) next (chain (map suffix suffixes.now) t.NoSuffix)) ≡ 0 }
{}

/// For a catch phrase.
pub(crate) fn room_for_phrase(routine: &Routine, next: u16, catching: &Phrase)
    requires room { next + hidden_phrase (phrase catching.now) ≤ 65535 }
    requires fits { excess_in_arms (spec.caught_by (coded routine.now) next (phrase catching.now)) ≡ 0 }
    ensures room { next + hidden_phrase (phrase catching.now) ≤ 65535 }
    ensures fits { excess_in_arms (spec.caught_by (coded routine.now) next (phrase catching.now)) ≡ 0 }
{}

/// For the arms of a catch phrase.
pub(crate) fn room_for_arms(routine: &Routine, next: u16, arms: &[Arm])
    requires room { next + hidden_arms (chain (map arm arms.now) t.NoArms) ≤ 65535 }
    requires fits { excess_in_arms (spec.arm_blocks (coded routine.now) next (chain (map arm arms.now) t.NoArms)) ≡ 0 }
    ensures room { next + hidden_arms (chain (map arm arms.now) t.NoArms) ≤ 65535 }
    ensures fits { excess_in_arms (spec.arm_blocks (coded routine.now) next (chain (map arm arms.now) t.NoArms)) ≡ 0 }
{}

/// For a statement.
pub(crate) fn room_for_statement(routine: &Routine, next: u16, s: &TypedStmt)
    requires room { next + hidden (stmt s.now) ≤ 65535 }
    requires fits { excess (spec.block (coded routine.now) next (stmt s.now)) ≡ 0 }
    ensures room { next + hidden (stmt s.now) ≤ 65535 }
    ensures fits { excess (spec.block (coded routine.now) next (stmt s.now)) ≡ 0 }
{}

/// For statements one behind the other.
pub(crate) fn room_for_statements(routine: &Routine, next: u16, ss: &[TypedStmt])
    requires room { next + hidden_stmts (stmts (map stmt ss.now)) ≤ 65535 }
    requires fits { excess (spec.blocks (coded routine.now) next (stmts (map stmt ss.now))) ≡ 0 }
    ensures room { next + hidden_stmts (stmts (map stmt ss.now)) ≤ 65535 }
    ensures fits { excess (spec.blocks (coded routine.now) next (stmts (map stmt ss.now))) ≡ 0 }
{}

/// For the targets of an extractor.
pub(crate) fn room_for_targets(routine: &Routine, next: u16, all: u64, ts: &[Target])
    requires room { next + hidden_targets (chain (map target ts.now) t.NoTargets) ≤ 65535 }
    requires fits { excess (spec.targets (coded routine.now) next all [] (chain (map target ts.now) t.NoTargets)) ≡ 0 }
    ensures room { next + hidden_targets (chain (map target ts.now) t.NoTargets) ≤ 65535 }
    ensures fits { excess (spec.targets (coded routine.now) next all [] (chain (map target ts.now) t.NoTargets)) ≡ 0 }
{}

/// For the cases of a selection.
pub(crate) fn room_for_cases(routine: &Routine, next: u16, slot: u16, passes: bool, cs: &[Case])
    requires room { next + hidden_cases (chain (map case cs.now) (t.Otherwise t.Null)) ≤ 65535 }
    requires fits { excess_among (case_blocks (coded routine.now) next slot passes (chain (map case cs.now) (t.Otherwise t.Null))) ≡ 0 }
    requires small { sizes_in (case_blocks (coded routine.now) next slot passes (chain (map case cs.now) (t.Otherwise t.Null))) ≤ 4294967295 }
    ensures room { next + hidden_cases (chain (map case cs.now) (t.Otherwise t.Null)) ≤ 65535 }
    ensures fits { excess_among (case_blocks (coded routine.now) next slot passes (chain (map case cs.now) (t.Otherwise t.Null))) ≡ 0 }
    ensures small { sizes_in (case_blocks (coded routine.now) next slot passes (chain (map case cs.now) (t.Otherwise t.Null))) ≤ 4294967295 }
{}

/// For the tests of a case.
pub(crate) fn room_for_tests(routine: &Routine, next: u16, slot: u16, ts: &[Test])
    requires room { next + hidden_tests (chain (map test ts.now) t.NoTests) ≤ 65535 }
    requires fits { excess (spec.tests (coded routine.now) next slot (chain (map test ts.now) t.NoTests)) ≡ 0 }
    ensures room { next + hidden_tests (chain (map test ts.now) t.NoTests) ≤ 65535 }
    ensures fits { excess (spec.tests (coded routine.now) next slot (chain (map test ts.now) t.NoTests)) ≡ 0 }
{}

/// For a test of a case.
pub(crate) fn room_for_test(routine: &Routine, next: u16, slot: u16, last: bool, of: &Test)
    requires room { next + hidden_tests (test of.now t.NoTests) ≤ 65535 }
    requires fits { excess (test_of (coded routine.now) next slot last (test of.now t.NoTests)) ≡ 0 }
    ensures room { next + hidden_tests (test of.now t.NoTests) ≤ 65535 }
    ensures fits { excess (test_of (coded routine.now) next slot last (test of.now t.NoTests)) ≡ 0 }
{}

/// For the condition of a loop.
pub(crate) fn room_for_condition(routine: &Routine, next: u16, of: &Condition)
    requires room { next + hidden_condition (condition of.now) ≤ 65535 }
    requires fits { excess (spec.condition (coded routine.now) next (condition of.now)) ≡ 0 }
    ensures room { next + hidden_condition (condition of.now) ≤ 65535 }
    ensures fits { excess (spec.condition (coded routine.now) next (condition of.now)) ≡ 0 }
{}

/// For the statements of labels.
pub(crate) fn room_for_exits(routine: &Routine, next: u16, es: &[Exit])
    requires room { next + hidden_exits (chain (map exit es.now) t.NoExits) ≤ 65535 }
    requires fits { excess_among (exit_blocks (coded routine.now) next (chain (map exit es.now) t.NoExits)) ≡ 0 }
    ensures room { next + hidden_exits (chain (map exit es.now) t.NoExits) ≤ 65535 }
    ensures fits { excess_among (exit_blocks (coded routine.now) next (chain (map exit es.now) t.NoExits)) ≡ 0 }
{}

/// For the statement of FINISHED.
pub(crate) fn room_for_finish(
    routine: &Routine,
    next: u16,
    endless: bool,
    jumps: bool,
    s: &TypedStmt,
)
    requires room { next + hidden (stmt s.now) ≤ 65535 }
    requires fits { excess (spec.unless endless (tree.Both (spec.block (coded routine.now) next (stmt s.now)) (past_if jumps 0))) ≡ 0 }
    ensures room { next + hidden (stmt s.now) ≤ 65535 }
    ensures fits { excess (spec.unless endless (tree.Both (spec.block (coded routine.now) next (stmt s.now)) (past_if jumps 0))) ≡ 0 }
{}
