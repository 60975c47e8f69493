//! In which order texts are taken.

ghost use Rattle.std.specs.Prelude.{◌≡◌, ◌↔◌, ℕ, ◌<◌, false, IfOk, IsTrue, MatchOption, length};
ghost use Rattle.include_rules.specs.Naming.{is_left};
ghost use Rattle.include_rules.specs.Order.{IsFirstLeft, IsNext, IsReady, IsStuck};
ghost use Rattle.include_checker.specs.Graphs.{IsGraph};

use crate::left::{first_left, is_left};
use crate::naming::Graph;
use mesa_base::{List, Numbers, OutOfMemory};
use std::alloc::Global;

fn is_ready(names: &Graph, taken: &[u32], text: u32) -> bool
    requires { text < length names.now }
    ensures { IsTrue result ↔ IsReady names.now taken.now text }
{
    is_left(taken, text) && first_left(names, taken, text).is_none()
}

// The first text that can be taken.
fn next_of(names: &Graph, taken: &[u32]) -> Option<u32>
    requires { IsGraph names.now }
    ensures { MatchOption result ((k : ℕ) → IsReady names.now taken.now k → ⊥) (IsNext names.now taken.now) }
{
    for text in 0..names.len() as u32 {
        if is_ready(names, taken, text) {
            return Some(text);
        }
    }
    None
}

/// The texts that can be taken, one after the other.
pub fn in_turn(alloc: Global, names: &Graph) -> Result<Numbers, OutOfMemory>
    requires { IsGraph names.now }
    ensures { IfOk result (IsStuck names.now) }
{
    let mut taken = List::new(alloc);
    'turns: while let Some(text) = next_of(names, taken.as_slice()) {
        taken.push(text)?;
    }
    Ok(taken)
}

/// The first text that is left.
pub fn first_open(names: &Graph, taken: &[u32]) -> Option<u32>
    requires { IsGraph names.now }
    ensures { MatchOption result ((k : ℕ) → k < length names.now → is_left taken.now k ≡ false) (IsFirstLeft names.now taken.now) }
{
    for text in 0..names.len() as u32 {
        if is_left(taken, text) {
            return Some(text);
        }
    }
    None
}
