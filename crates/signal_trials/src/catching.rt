//! A body that catches: `BEGIN ENABLE BEGIN BoundsFault => RETRY; ZeroDivisor => RETURN; ANY => CONTINUE END; END`.
ghost use Rattle.std.specs.Prelude.{◌≡◌, [], ◌∷◌, ◌++◌, map, IfOk};
ghost use Rattle.mesa_types.specs.Plain as plain;
ghost use Rattle.mesa_types.specs.Typed as t;
ghost use Rattle.signal_trials.specs.Catching as spec;

use mesa_types::held_trees::{both, boxed, pushed, shared};
use mesa_types::mesa_base::{Boxed, List, OutOfMemory};
use mesa_types::{Arm, Arms, Goal, Label, Phrase, TypedBody, TypedStmt};
use std::alloc::Global;

fn retry() -> TypedStmt
    ensures { plain.stmt result ≡ t.Retry 0 }
{
    TypedStmt::Retry(0)
}

fn leave() -> TypedStmt
    ensures { plain.stmt result ≡ spec.leave }
{
    TypedStmt::Jump(1, Goal::ToReturn)
}

fn go_on() -> TypedStmt
    ensures { plain.stmt result ≡ t.Continue 0 }
{
    TypedStmt::Continue(0)
}

/// An arm without parameters.
fn arm(alloc: Global, label: Label, body: TypedStmt) -> Result<Arm, OutOfMemory>
    ensures { IfOk result (λ made. plain.arm made ≡ t.AndArm (label ∷ []) 0 0 (plain.stmt body)) }
{
    let (body, labels) = both(body, List::from_slice(alloc, &[label]))?;
    Ok(Arm {
        labels,
        first: 0,
        count: 0,
        body,
    })
}

/// The arms and one more behind them.
fn with_arm(arms: Arms, one: Arm) -> Result<Arms, OutOfMemory>
    ensures { IfOk result (λ longer. map plain.arm longer ≡ map plain.arm arms ++ plain.arm one ∷ []) }
{
    Ok(pushed(arms, one)?)
}

fn first_arm(alloc: Global) -> Result<Arms, OutOfMemory>
    ensures { IfOk result (λ made. map plain.arm made ≡ spec.again ∷ []) }
{
    let again = arm(alloc, Label::OnBounds, retry())?;
    Ok(with_arm(List::new(alloc), again)?)
}

fn first_arms(alloc: Global) -> Result<Arms, OutOfMemory>
    ensures { IfOk result (λ made. map plain.arm made ≡ spec.again ∷ spec.away ∷ []) }
{
    let arms = first_arm(alloc)?;
    let (arms, away) = both(arms, arm(alloc, Label::OnZero, leave()))?;
    Ok(with_arm(arms, away)?)
}

fn arms(alloc: Global) -> Result<Arms, OutOfMemory>
    ensures { IfOk result (λ made. map plain.arm made ≡ spec.arms) }
{
    let arms = first_arms(alloc)?;
    let (arms, onward) = both(arms, arm(alloc, Label::OnAny, go_on()))?;
    Ok(with_arm(arms, onward)?)
}

fn catching(arms: Arms) -> Phrase
    ensures { plain.phrase result ≡ t.Catch 0 (plain.chain (map plain.arm arms) t.NoArms) }
{
    Phrase::Catch(0, arms)
}

fn enabling(alloc: Global, phrase: Boxed<Phrase>) -> TypedStmt
    ensures { plain.stmt result ≡ t.Block (plain.phrase phrase) t.NoStmts t.NoExits }
{
    TypedStmt::Block(phrase, List::new(alloc), List::new(alloc))
}

fn marked(block: Boxed<TypedStmt>) -> TypedStmt
    ensures { plain.stmt result ≡ t.Marked 0 (plain.stmt block) }
{
    TypedStmt::Marked(0, block)
}

fn statement(alloc: Global) -> Result<TypedStmt, OutOfMemory>
    ensures { IfOk result (λ made. plain.stmt made ≡ spec.statement) }
{
    let phrase = boxed(alloc, catching(arms(alloc)?))?;
    let block = boxed(alloc, enabling(alloc, phrase))?;
    Ok(marked(block))
}

pub fn body(alloc: Global) -> Result<TypedBody, OutOfMemory>
    ensures { IfOk result (λ made. plain.plain_body made ≡ spec.body) }
{
    let does = shared(alloc, statement(alloc)?)?;
    Ok(TypedBody {
        variables: List::new(alloc),
        does,
    })
}
