//! The hidden words of a statement.
ghost use Rattle.std.specs.Prelude.{◌≡◌, map, min};
ghost use Rattle.mesa_base.specs.Chain.{chain};
ghost use Rattle.mesa_types.specs.Counts.{hidden, hidden_arms, hidden_cases, hidden_condition, hidden_exits, hidden_expr, hidden_exprs, hidden_interval, hidden_loop, hidden_operations, hidden_phrase, hidden_stmts, hidden_suffixes, hidden_targets, hidden_tests};
ghost use Rattle.mesa_types.specs.Plain.{arm, case, condition, exit, expr, exprs, interval, loop, operation, phrase, stmt, stmts, suffix, target, test};
ghost use Rattle.mesa_types.specs.Typed as t;

use mesa_types::{
    Arm, Case, Condition, Exit, Interval, Loop, Operation, Phrase, Suffix, Target, Test, TypedExpr,
    TypedStmt,
};

/// Three for each FOR or THROUGH in a statement and one for each SELECT, or two where its selector is LONG, those in arms
/// too, as the translation lays them out; 18,446,744,073,709,551,615 where they are more. The recursion is as deep as the
/// tree.
#[cycle(hidden)]
#[tactic(auto, unfolding(mesa_types::specs::Counts::hidden))]
pub fn hidden_words(s: &TypedStmt) -> u64
    ensures { result ≡ min (hidden (stmt s.now)) 18446744073709551615 }
{
    match s {
        TypedStmt::Null
        | TypedStmt::Declare(_, _)
        | TypedStmt::Jump(_, _)
        | TypedStmt::Reject
        | TypedStmt::Retry(_)
        | TypedStmt::Continue(_) => 0,
        TypedStmt::Marked(_, of) => hidden_words(of.get()),
        TypedStmt::DeclareAs(_, _, e) | TypedStmt::Perform(e) => in_expr(e),
        TypedStmt::Assign(_, suffixes, e) => {
            in_suffixes(suffixes.as_slice()).saturating_add(in_expr(e))
        }
        TypedStmt::Extract(_, targets, e) => {
            in_targets(targets.as_slice()).saturating_add(in_expr(e))
        }
        TypedStmt::If(e, then, otherwise) => in_expr(e)
            .saturating_add(hidden_words(then.get()))
            .saturating_add(hidden_words(otherwise.get())),
        TypedStmt::Select(e, cases, otherwise) => 1u64
            .saturating_add(in_expr(e))
            .saturating_add(in_cases(cases.as_slice()))
            .saturating_add(hidden_words(otherwise.get())),
        TypedStmt::SelectLong(e, cases, otherwise) => 2u64
            .saturating_add(in_expr(e))
            .saturating_add(in_cases(cases.as_slice()))
            .saturating_add(hidden_words(otherwise.get())),
        TypedStmt::Block(catching, ss, exits) => in_phrase(catching.get())
            .saturating_add(in_stmts(ss.as_slice()))
            .saturating_add(in_exits(exits.as_slice())),
        TypedStmt::Repeat(l) => in_loop(l.get()),
        TypedStmt::For(_, _, _, range, l) => 3u64
            .saturating_add(in_interval(range.get()))
            .saturating_add(in_loop(l.get())),
        TypedStmt::ReturnWith(_, _, _, es) | TypedStmt::Resume(_, es) => in_exprs(es.as_slice()),
    }
}

#[cycle(hidden)]
#[tactic(auto, unfolding(mesa_types::specs::Counts::hidden))]
fn in_expr(e: &TypedExpr) -> u64
    ensures { result ≡ min (hidden_expr (expr e.now)) 18446744073709551615 }
{
    match e {
        TypedExpr::Number(_) | TypedExpr::LongNumber(_) | TypedExpr::Literal(_) => 0,
        TypedExpr::Variable(_, suffixes, _) => in_suffixes(suffixes.as_slice()),
        TypedExpr::FieldOf(of, _)
        | TypedExpr::LengthOf(of)
        | TypedExpr::Checked(_, of)
        | TypedExpr::Converted(_, of)
        | TypedExpr::Negate(of)
        | TypedExpr::NegateLong(of)
        | TypedExpr::Not(of) => in_expr(of.get()),
        TypedExpr::ByteOf(left, right)
        | TypedExpr::Relate(_, _, left, right)
        | TypedExpr::RelateLong(_, _, left, right) => {
            in_expr(left.get()).saturating_add(in_expr(right.get()))
        }
        TypedExpr::Operate(first, rest) | TypedExpr::OperateLong(first, rest) => {
            in_expr(first.get()).saturating_add(in_operations(rest.as_slice()))
        }
        TypedExpr::Within(_, of, range) | TypedExpr::WithinLong(_, of, range) => {
            in_expr(of.get()).saturating_add(in_interval(range.get()))
        }
        TypedExpr::AllOf(es) | TypedExpr::SomeOf(es) | TypedExpr::Construct(_, es) => {
            in_exprs(es.as_slice())
        }
        TypedExpr::Call(_, _, es, _, catching) | TypedExpr::Raise(_, _, es, _, catching) => {
            in_exprs(es.as_slice()).saturating_add(in_phrase(catching.get()))
        }
    }
}

#[cycle(hidden)]
#[tactic(auto, unfolding(mesa_types::specs::Counts::hidden))]
fn in_exprs(es: &[TypedExpr]) -> u64
    ensures { result ≡ min (hidden_exprs (exprs (map expr es.now))) 18446744073709551615 }
{
    let mut words = 0u64;
    for e in es {
        words = words.saturating_add(in_expr(e));
    }
    words
}

#[cycle(hidden)]
#[tactic(auto, unfolding(mesa_types::specs::Counts::hidden))]
fn in_suffixes(suffixes: &[Suffix]) -> u64
    ensures { result ≡ min (hidden_suffixes (chain (map suffix suffixes.now) t.NoSuffix)) 18446744073709551615 }
{
    let mut words = 0u64;
    for suffix in suffixes {
        match suffix {
            Suffix::Field(_, _) => {}
            Suffix::Index(_, e) => words = words.saturating_add(in_expr(e)),
        }
    }
    words
}

#[cycle(hidden)]
#[tactic(auto, unfolding(mesa_types::specs::Counts::hidden))]
fn in_operations(operations: &[Operation]) -> u64
    ensures { result ≡ min (hidden_operations (chain (map operation operations.now) t.NoOperation)) 18446744073709551615 }
{
    let mut words = 0u64;
    for step in operations {
        words = words.saturating_add(in_expr(&step.right));
    }
    words
}

#[cycle(hidden)]
#[tactic(auto, unfolding(mesa_types::specs::Counts::hidden))]
fn in_interval(range: &Interval) -> u64
    ensures { result ≡ min (hidden_interval (interval range.now)) 18446744073709551615 }
{
    in_expr(&range.first).saturating_add(in_expr(&range.last))
}

#[cycle(hidden)]
#[tactic(auto, unfolding(mesa_types::specs::Counts::hidden))]
fn in_phrase(catching: &Phrase) -> u64
    ensures { result ≡ min (hidden_phrase (phrase catching.now)) 18446744073709551615 }
{
    match catching {
        Phrase::NoPhrase => 0,
        Phrase::Catch(_, arms) => in_arms(arms.as_slice()),
    }
}

#[cycle(hidden)]
#[tactic(auto, unfolding(mesa_types::specs::Counts::hidden))]
fn in_arms(arms: &[Arm]) -> u64
    ensures { result ≡ min (hidden_arms (chain (map arm arms.now) t.NoArms)) 18446744073709551615 }
{
    let mut words = 0u64;
    for arm in arms {
        words = words.saturating_add(hidden_words(&arm.body));
    }
    words
}

#[cycle(hidden)]
#[tactic(auto, unfolding(mesa_types::specs::Counts::hidden))]
fn in_stmts(ss: &[TypedStmt]) -> u64
    ensures { result ≡ min (hidden_stmts (stmts (map stmt ss.now))) 18446744073709551615 }
{
    let mut words = 0u64;
    for s in ss {
        words = words.saturating_add(hidden_words(s));
    }
    words
}

#[cycle(hidden)]
#[tactic(auto, using(crate::proofs::WordLaws::hidden_target), unfolding(mesa_types::specs::Counts::hidden))]
fn in_targets(targets: &[Target]) -> u64
    ensures { result ≡ min (hidden_targets (chain (map target targets.now) t.NoTargets)) 18446744073709551615 }
{
    let mut words = 0u64;
    for target in targets {
        words = words.saturating_add(in_suffixes(target.suffixes.as_slice()));
    }
    words
}

/// The cases but the last one, in which there is no test.
#[cycle(hidden)]
#[tactic(auto, unfolding(mesa_types::specs::Counts::hidden))]
fn in_cases(cases: &[Case]) -> u64
    ensures { result ≡ min (hidden_cases (chain (map case cases.now) (t.Otherwise t.Null))) 18446744073709551615 }
{
    let mut words = 0u64;
    for case in cases {
        let tests = in_tests(case.tests.as_slice());
        words = words.saturating_add(tests.saturating_add(hidden_words(&case.body)));
    }
    words
}

#[cycle(hidden)]
#[tactic(auto, unfolding(mesa_types::specs::Counts::hidden))]
fn in_tests(tests: &[Test]) -> u64
    ensures { result ≡ min (hidden_tests (chain (map test tests.now) t.NoTests)) 18446744073709551615 }
{
    let mut words = 0u64;
    for test in tests {
        match test {
            Test::IfRelated(_, _, _, e) | Test::IfRelatedLong(_, _, _, e) => {
                words = words.saturating_add(in_expr(e))
            }
            Test::IfWithin(_, _, range) | Test::IfWithinLong(_, _, _, range) => {
                words = words.saturating_add(in_interval(range))
            }
        }
    }
    words
}

#[cycle(hidden)]
#[tactic(auto, unfolding(mesa_types::specs::Counts::hidden))]
fn in_exits(exits: &[Exit]) -> u64
    ensures { result ≡ min (hidden_exits (chain (map exit exits.now) t.NoExits)) 18446744073709551615 }
{
    let mut words = 0u64;
    for exit in exits {
        words = words.saturating_add(hidden_words(&exit.body));
    }
    words
}

#[cycle(hidden)]
#[tactic(auto, unfolding(mesa_types::specs::Counts::hidden))]
fn in_loop(l: &Loop) -> u64
    ensures { result ≡ min (hidden_loop (loop l.now)) 18446744073709551615 }
{
    let words = in_condition(&l.condition)
        .saturating_add(hidden_words(&l.body))
        .saturating_add(in_exits(l.exits.as_slice()));
    match &l.finished {
        Some(s) => words.saturating_add(hidden_words(s)),
        None => words,
    }
}

#[cycle(hidden)]
#[tactic(auto, unfolding(mesa_types::specs::Counts::hidden))]
fn in_condition(control: &Condition) -> u64
    ensures { result ≡ min (hidden_condition (condition control.now)) 18446744073709551615 }
{
    match control {
        Condition::Always => 0,
        Condition::While(e) | Condition::Until(e) => in_expr(e),
    }
}
