//! What is found in the body.

use crate::catching::body;
use mesa_types::Label;
use mesa_types::held_trees::LetGo;
use mesa_types::mesa_base::OutOfMemory;
use signal_scopes::{ArmScope, JumpScope, PhraseScope, Point, Scopes, scopes};
use std::alloc::Global;
use std::test::Fail;

/// Whether the jump leaves one arm, for the first statement's start, for the return, or for the place after that statement.
fn is_jump(jump: JumpScope, number: usize) -> bool {
    let is_there = match jump.point {
        Point::Start(0) => number == 0,
        Point::Leave => number == 1,
        Point::After(0) => number == 2,
        _ => false,
    };
    is_there && jump.arms == 1
}

fn is_label(label: Label, number: usize) -> bool {
    match label {
        Label::OnBounds => number == 0,
        Label::OnZero => number == 1,
        Label::OnAny => number == 2,
        _ => false,
    }
}

fn is_arm(arm: &ArmScope, number: usize) -> bool {
    let labels = arm.labels.as_slice();
    let jumps = arm.jumps.as_slice();
    labels.len() == 1
        && jumps.len() == 1
        && is_label(labels[0], number)
        && is_jump(jumps[0], number)
}

fn is_phrase(phrase: &PhraseScope) -> bool {
    let arms = phrase.arms.as_slice();
    phrase.statement == 0
        && arms.len() == 3
        && is_arm(&arms[0], 0)
        && is_arm(&arms[1], 1)
        && is_arm(&arms[2], 2)
}

#[tactic(auto, using(crate::proofs::Sound::sound_where_alike))]
fn found(alloc: Global) -> Result<Scopes, OutOfMemory> {
    let body = body(alloc)?;
    let found = scopes(alloc, &body);
    body.let_go();
    found
}

fn is_found(alloc: Global) -> Result<bool, OutOfMemory> {
    let found = found(alloc)?;
    Ok(found.len() == 1 && found.get(0).is_some_and(is_phrase))
}

#[test]
fn phrase_of_a_body(rt: HostRuntime) -> Result<(), Fail> {
    assert!(rt; is_found(rt.alloc())?);
    Ok(())
}
