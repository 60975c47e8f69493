//! The search of a body for its catch phrases, and for the jumps in their arms.
ghost use Rattle.std.specs.Prelude.{◌≡◌, [], ◌∷◌, ◌++◌, map, option_map, IfOk, OnOk};
ghost use Rattle.mesa_base.specs.Chain.{chain};
ghost use Rattle.mesa_types.specs.Plain.{arm, case, condition, exit, expr, exprs, finish, interval, loop, operation, phrase, plain_body, stmt, stmts, suffix, target, test};
ghost use Rattle.mesa_types.specs.Typed as t;
ghost use Rattle.code_rules.specs.Scopes as spec;
ghost use Rattle.code_rules.specs.Told.{told_arms, told_cases, told_condition, told_exits, told_expr, told_exprs, told_finish, told_interval, told_loop, told_operations, told_phrase, told_stmt, told_stmts, told_suffixes, told_targets, told_tests};
ghost use Rattle.signal_scopes.specs.Views.{jumps_of, arms_of, phrases_of, point_of};
ghost use Rattle.signal_scopes.specs.FirstCases.{told_first_cases};
ghost use Rattle.signal_scopes.specs.Bodies.{IsSoundBody};

use crate::scope_types::{ArmScope, ArmScopes, JumpScope, JumpScopes, PhraseScope, Point, Scopes};
use mesa_base::{List, OutOfMemory};
use mesa_types::{
    Arm, Case, Condition, Exit, Goal, Interval, Loop, Operation, Phrase, Suffix, Target, Test,
    TypedBody, TypedExpr, TypedStmt,
};
use std::alloc::Global;

/// The catch phrases of a body: the statement and the arms of each, and for each jump in an arm its point and how many
/// arms it leaves (Language Manual, chapter 8). The one refusal is want of memory. The recursion is as deep as the tree.
#[tactic(auto, using(crate::proofs::Steps::told_whole))]
pub fn scopes(alloc: Global, body: &TypedBody) -> Result<Scopes, OutOfMemory>
    requires { IsSoundBody (plain_body «body».now) }
    ensures { IfOk result (λ found. phrases_of found ≡ spec.scopes (plain_body «body».now)) }
{
    let mut jumps = List::new(alloc);
    let mut phrases = List::new(alloc);
    find_in_stmt(alloc, body.does.get(), &mut jumps, &mut phrases)?;
    Ok(phrases)
}

#[tactic(auto, unfolding(mesa_types::specs::Typed::point_of))]
fn point_of(goal: Goal) -> Point
    ensures { point_of result ≡ t.point_of goal }
{
    match goal {
        Goal::PastStatement(statement) => Point::After(statement),
        Goal::ToLabel(label) => Point::At(label),
        Goal::ToReturn => Point::Leave,
    }
}

fn put_jump(jumps: &mut JumpScopes, arms: u32, point: Point) -> Result<(), OutOfMemory>
    ensures { OnOk result (jumps_of jumps.new ≡ jumps_of jumps.old ++ record { point = point_of point; arms = arms } ∷ []) }
{
    jumps.push(JumpScope { point, arms })?;
    Ok(())
}

#[cycle(scopes)]
#[tactic(auto, unfolding(code_rules::specs::Told::told_expr))]
fn find_in_expr(
    alloc: Global,
    e: &TypedExpr,
    jumps: &mut JumpScopes,
    phrases: &mut Scopes,
) -> Result<(), OutOfMemory>
    ensures jumps { OnOk result (jumps_of jumps.new ≡ jumps_of jumps.old ++ (told_expr (expr e.now)).jumps) }
    ensures phrases { OnOk result (phrases_of phrases.new ≡ phrases_of phrases.old ++ (told_expr (expr e.now)).phrases) }
{
    match e {
        TypedExpr::Number(_) | TypedExpr::LongNumber(_) | TypedExpr::Literal(_) => Ok(()),
        TypedExpr::Variable(_, suffixes, _) => {
            find_in_suffixes(alloc, suffixes.as_slice(), jumps, phrases)
        }
        TypedExpr::FieldOf(of, _)
        | TypedExpr::LengthOf(of)
        | TypedExpr::Checked(_, of)
        | TypedExpr::Converted(_, of)
        | TypedExpr::Negate(of)
        | TypedExpr::NegateLong(of)
        | TypedExpr::Not(of) => find_in_expr(alloc, of.get(), jumps, phrases),
        TypedExpr::ByteOf(left, right)
        | TypedExpr::Relate(_, _, left, right)
        | TypedExpr::RelateLong(_, _, left, right) => {
            find_in_expr(alloc, left.get(), jumps, phrases)?;
            find_in_expr(alloc, right.get(), jumps, phrases)
        }
        TypedExpr::Operate(first, rest) | TypedExpr::OperateLong(first, rest) => {
            find_in_expr(alloc, first.get(), jumps, phrases)?;
            find_in_operations(alloc, rest.as_slice(), jumps, phrases)
        }
        TypedExpr::Within(_, of, interval) | TypedExpr::WithinLong(_, of, interval) => {
            find_in_expr(alloc, of.get(), jumps, phrases)?;
            find_in_interval(alloc, interval.get(), jumps, phrases)
        }
        TypedExpr::AllOf(es) | TypedExpr::SomeOf(es) | TypedExpr::Construct(_, es) => {
            find_in_exprs(alloc, es.as_slice(), jumps, phrases)
        }
        TypedExpr::Call(_, _, es, _, catching) | TypedExpr::Raise(_, _, es, _, catching) => {
            find_in_exprs(alloc, es.as_slice(), jumps, phrases)?;
            find_in_phrase(alloc, catching.get(), phrases)
        }
    }
}

#[cycle(scopes)]
#[tactic(auto, unfolding(code_rules::specs::Told::told_expr))]
fn find_in_exprs(
    alloc: Global,
    es: &[TypedExpr],
    jumps: &mut JumpScopes,
    phrases: &mut Scopes,
) -> Result<(), OutOfMemory>
    ensures jumps { OnOk result (jumps_of jumps.new ≡ jumps_of jumps.old ++ (told_exprs (exprs (map expr es.now))).jumps) }
    ensures phrases { OnOk result (phrases_of phrases.new ≡ phrases_of phrases.old ++ (told_exprs (exprs (map expr es.now))).phrases) }
{
    for e in es {
        find_in_expr(alloc, e, jumps, phrases)?;
    }
    Ok(())
}

#[cycle(scopes)]
#[tactic(auto, unfolding(code_rules::specs::Told::told_expr))]
fn find_in_suffixes(
    alloc: Global,
    suffixes: &[Suffix],
    jumps: &mut JumpScopes,
    phrases: &mut Scopes,
) -> Result<(), OutOfMemory>
    ensures jumps { OnOk result (jumps_of jumps.new ≡ jumps_of jumps.old ++ (told_suffixes (chain (map suffix suffixes.now) t.NoSuffix)).jumps) }
    ensures phrases { OnOk result (phrases_of phrases.new ≡ phrases_of phrases.old ++ (told_suffixes (chain (map suffix suffixes.now) t.NoSuffix)).phrases) }
{
    for suffix in suffixes {
        match suffix {
            Suffix::Field(_, _) => {}
            Suffix::Index(_, e) => find_in_expr(alloc, e, jumps, phrases)?,
        }
    }
    Ok(())
}

#[cycle(scopes)]
#[tactic(auto, unfolding(code_rules::specs::Told::told_expr))]
fn find_in_operations(
    alloc: Global,
    operations: &[Operation],
    jumps: &mut JumpScopes,
    phrases: &mut Scopes,
) -> Result<(), OutOfMemory>
    ensures jumps { OnOk result (jumps_of jumps.new ≡ jumps_of jumps.old ++ (told_operations (chain (map operation operations.now) t.NoOperation)).jumps) }
    ensures phrases { OnOk result (phrases_of phrases.new ≡ phrases_of phrases.old ++ (told_operations (chain (map operation operations.now) t.NoOperation)).phrases) }
{
    for step in operations {
        find_in_expr(alloc, &step.right, jumps, phrases)?;
    }
    Ok(())
}

#[cycle(scopes)]
#[tactic(auto, unfolding(code_rules::specs::Told::told_expr))]
fn find_in_interval(
    alloc: Global,
    range: &Interval,
    jumps: &mut JumpScopes,
    phrases: &mut Scopes,
) -> Result<(), OutOfMemory>
    ensures jumps { OnOk result (jumps_of jumps.new ≡ jumps_of jumps.old ++ (told_interval (interval range.now)).jumps) }
    ensures phrases { OnOk result (phrases_of phrases.new ≡ phrases_of phrases.old ++ (told_interval (interval range.now)).phrases) }
{
    find_in_expr(alloc, &range.first, jumps, phrases)?;
    find_in_expr(alloc, &range.last, jumps, phrases)
}

/// A phrase stands before those in its arms, so its place is taken first.
#[cycle(scopes)]
#[tactic(auto, unfolding(code_rules::specs::Told::told_expr))]
fn find_in_phrase(alloc: Global, catching: &Phrase, phrases: &mut Scopes) -> Result<(), OutOfMemory>
    ensures { OnOk result (phrases_of phrases.new ≡ phrases_of phrases.old ++ (told_phrase (phrase catching.now)).phrases) }
{
    let Phrase::Catch(statement, arms) = catching else {
        return Ok(());
    };
    let at = phrases.len();
    phrases.push(PhraseScope {
        statement: *statement,
        arms: List::new(alloc),
    })?;
    let arms = find_in_arms(alloc, arms.as_slice(), phrases)?;
    phrases.set(
        at,
        PhraseScope {
            statement: *statement,
            arms,
        },
    );
    Ok(())
}

#[cycle(scopes)]
#[tactic(auto, unfolding(code_rules::specs::Told::told_expr))]
fn find_in_arms(alloc: Global, arms: &[Arm], phrases: &mut Scopes) -> Result<ArmScopes, OutOfMemory>
    ensures arms { IfOk result (λ found. arms_of found ≡ (told_arms (chain (map arm arms.now) t.NoArms)).arms) }
    ensures phrases { OnOk result (phrases_of phrases.new ≡ phrases_of phrases.old ++ (told_arms (chain (map arm arms.now) t.NoArms)).phrases) }
{
    let mut found = List::new(alloc);
    for arm in arms {
        let labels = List::from_slice(alloc, arm.labels.as_slice())?;
        let mut jumps = List::new(alloc);
        find_in_stmt(alloc, &arm.body, &mut jumps, phrases)?;
        found.push(ArmScope { labels, jumps })?;
    }
    Ok(found)
}

#[cycle(scopes)]
#[tactic(auto, unfolding(code_rules::specs::Told::told_expr))]
fn find_in_stmt(
    alloc: Global,
    s: &TypedStmt,
    jumps: &mut JumpScopes,
    phrases: &mut Scopes,
) -> Result<(), OutOfMemory>
    ensures jumps { OnOk result (jumps_of jumps.new ≡ jumps_of jumps.old ++ (told_stmt (stmt s.now)).jumps) }
    ensures phrases { OnOk result (phrases_of phrases.new ≡ phrases_of phrases.old ++ (told_stmt (stmt s.now)).phrases) }
{
    match s {
        TypedStmt::Null | TypedStmt::Declare(_, _) | TypedStmt::Reject => Ok(()),
        TypedStmt::Marked(_, of) => find_in_stmt(alloc, of.get(), jumps, phrases),
        TypedStmt::DeclareAs(_, _, e) | TypedStmt::Perform(e) => {
            find_in_expr(alloc, e, jumps, phrases)
        }
        TypedStmt::Assign(_, suffixes, e) => {
            find_in_suffixes(alloc, suffixes.as_slice(), jumps, phrases)?;
            find_in_expr(alloc, e, jumps, phrases)
        }
        TypedStmt::Extract(_, targets, e) => {
            find_in_targets(alloc, targets.as_slice(), jumps, phrases)?;
            find_in_expr(alloc, e, jumps, phrases)
        }
        TypedStmt::If(e, then, otherwise) => {
            find_in_expr(alloc, e, jumps, phrases)?;
            find_in_stmt(alloc, then.get(), jumps, phrases)?;
            find_in_stmt(alloc, otherwise.get(), jumps, phrases)
        }
        TypedStmt::Select(e, cases, otherwise) | TypedStmt::SelectLong(e, cases, otherwise) => {
            find_in_expr(alloc, e, jumps, phrases)?;
            find_in_cases(alloc, cases.as_slice(), jumps, phrases)?;
            find_in_stmt(alloc, otherwise.get(), jumps, phrases)
        }
        TypedStmt::Block(catching, ss, exits) => {
            find_in_phrase(alloc, catching.get(), phrases)?;
            find_in_stmts(alloc, ss.as_slice(), jumps, phrases)?;
            find_in_exits(alloc, exits.as_slice(), jumps, phrases)
        }
        TypedStmt::Repeat(l) => find_in_loop(alloc, l.get(), jumps, phrases),
        TypedStmt::For(_, _, _, interval, l) => {
            find_in_interval(alloc, interval.get(), jumps, phrases)?;
            find_in_loop(alloc, l.get(), jumps, phrases)
        }
        TypedStmt::Jump(arms, goal) => put_jump(jumps, *arms, point_of(*goal)),
        TypedStmt::ReturnWith(arms, _, _, es) => {
            find_in_exprs(alloc, es.as_slice(), jumps, phrases)?;
            put_jump(jumps, *arms, Point::Leave)
        }
        TypedStmt::Resume(_, es) => find_in_exprs(alloc, es.as_slice(), jumps, phrases),
        TypedStmt::Retry(statement) => put_jump(jumps, 1, Point::Start(*statement)),
        TypedStmt::Continue(statement) => put_jump(jumps, 1, Point::After(*statement)),
    }
}

#[cycle(scopes)]
#[tactic(auto, unfolding(code_rules::specs::Told::told_expr))]
fn find_in_stmts(
    alloc: Global,
    ss: &[TypedStmt],
    jumps: &mut JumpScopes,
    phrases: &mut Scopes,
) -> Result<(), OutOfMemory>
    ensures jumps { OnOk result (jumps_of jumps.new ≡ jumps_of jumps.old ++ (told_stmts (stmts (map stmt ss.now))).jumps) }
    ensures phrases { OnOk result (phrases_of phrases.new ≡ phrases_of phrases.old ++ (told_stmts (stmts (map stmt ss.now))).phrases) }
{
    for s in ss {
        find_in_stmt(alloc, s, jumps, phrases)?;
    }
    Ok(())
}

#[cycle(scopes)]
#[tactic(auto, unfolding(code_rules::specs::Told::told_expr), using(crate::proofs::Steps::target_jumps, crate::proofs::Steps::target_phrases))]
fn find_in_targets(
    alloc: Global,
    targets: &[Target],
    jumps: &mut JumpScopes,
    phrases: &mut Scopes,
) -> Result<(), OutOfMemory>
    ensures jumps { OnOk result (jumps_of jumps.new ≡ jumps_of jumps.old ++ (told_targets (chain (map target targets.now) t.NoTargets)).jumps) }
    ensures phrases { OnOk result (phrases_of phrases.new ≡ phrases_of phrases.old ++ (told_targets (chain (map target targets.now) t.NoTargets)).phrases) }
{
    for target in targets {
        find_in_suffixes(alloc, target.suffixes.as_slice(), jumps, phrases)?;
    }
    Ok(())
}

/// The cases but the last one, in which there is no test.
#[cycle(scopes)]
#[tactic(auto, unfolding(code_rules::specs::Told::told_cases, crate::specs::FirstCases::told_first_cases))]
fn find_in_cases(
    alloc: Global,
    cases: &[Case],
    jumps: &mut JumpScopes,
    phrases: &mut Scopes,
) -> Result<(), OutOfMemory>
    ensures jumps { OnOk result (jumps_of jumps.new ≡ jumps_of jumps.old ++ (told_first_cases cases.now).jumps) }
    ensures phrases { OnOk result (phrases_of phrases.new ≡ phrases_of phrases.old ++ (told_first_cases cases.now).phrases) }
{
    for case in cases {
        find_in_tests(alloc, case.tests.as_slice(), jumps, phrases)?;
        find_in_stmt(alloc, &case.body, jumps, phrases)?;
    }
    Ok(())
}

#[cycle(scopes)]
#[tactic(auto, unfolding(code_rules::specs::Told::told_expr))]
fn find_in_tests(
    alloc: Global,
    tests: &[Test],
    jumps: &mut JumpScopes,
    phrases: &mut Scopes,
) -> Result<(), OutOfMemory>
    ensures jumps { OnOk result (jumps_of jumps.new ≡ jumps_of jumps.old ++ (told_tests (chain (map test tests.now) t.NoTests)).jumps) }
    ensures phrases { OnOk result (phrases_of phrases.new ≡ phrases_of phrases.old ++ (told_tests (chain (map test tests.now) t.NoTests)).phrases) }
{
    for test in tests {
        match test {
            Test::IfRelated(_, _, _, e) | Test::IfRelatedLong(_, _, _, e) => {
                find_in_expr(alloc, e, jumps, phrases)?
            }
            Test::IfWithin(_, _, interval) | Test::IfWithinLong(_, _, _, interval) => {
                find_in_interval(alloc, interval, jumps, phrases)?
            }
        }
    }
    Ok(())
}

#[cycle(scopes)]
#[tactic(auto, unfolding(code_rules::specs::Told::told_expr))]
fn find_in_exits(
    alloc: Global,
    exits: &[Exit],
    jumps: &mut JumpScopes,
    phrases: &mut Scopes,
) -> Result<(), OutOfMemory>
    ensures jumps { OnOk result (jumps_of jumps.new ≡ jumps_of jumps.old ++ (told_exits (chain (map exit exits.now) t.NoExits)).jumps) }
    ensures phrases { OnOk result (phrases_of phrases.new ≡ phrases_of phrases.old ++ (told_exits (chain (map exit exits.now) t.NoExits)).phrases) }
{
    for exit in exits {
        find_in_stmt(alloc, &exit.body, jumps, phrases)?;
    }
    Ok(())
}

#[cycle(scopes)]
#[tactic(auto, unfolding(code_rules::specs::Told::told_expr))]
fn find_in_loop(
    alloc: Global,
    l: &Loop,
    jumps: &mut JumpScopes,
    phrases: &mut Scopes,
) -> Result<(), OutOfMemory>
    ensures jumps { OnOk result (jumps_of jumps.new ≡ jumps_of jumps.old ++ (told_loop (loop l.now)).jumps) }
    ensures phrases { OnOk result (phrases_of phrases.new ≡ phrases_of phrases.old ++ (told_loop (loop l.now)).phrases) }
{
    find_in_condition(alloc, &l.condition, jumps, phrases)?;
    find_in_stmt(alloc, &l.body, jumps, phrases)?;
    find_in_exits(alloc, l.exits.as_slice(), jumps, phrases)?;
    match &l.finished {
        Some(s) => find_in_stmt(alloc, s, jumps, phrases),
        None => Ok(()),
    }
}

#[cycle(scopes)]
#[tactic(auto, unfolding(code_rules::specs::Told::told_expr))]
fn find_in_condition(
    alloc: Global,
    control: &Condition,
    jumps: &mut JumpScopes,
    phrases: &mut Scopes,
) -> Result<(), OutOfMemory>
    ensures jumps { OnOk result (jumps_of jumps.new ≡ jumps_of jumps.old ++ (told_condition (condition control.now)).jumps) }
    ensures phrases { OnOk result (phrases_of phrases.new ≡ phrases_of phrases.old ++ (told_condition (condition control.now)).phrases) }
{
    match control {
        Condition::Always => Ok(()),
        Condition::While(e) | Condition::Until(e) => find_in_expr(alloc, e, jumps, phrases),
    }
}
