//! Parts that are made before those in which they stand.
ghost use Rattle.std.specs.Prelude.{◌≡◌, ◌+◌, [], ◌∷◌, ◌++◌, length, Option, MatchOption, IfOk};
ghost use Rattle.code_trees.specs.Forms.{blocks_of};
ghost use Rattle.code_trees.specs.Plain.{plain};

use crate::part::Part;
use held_trees::LetGo;
use mesa_base::OutOfMemory;
use std::alloc::{AllocFailed, Global};
use std::collections::VecDeque;

/// Parts in order, which are taken out one by one.
pub struct Held {
    pub parts: VecDeque<Part>,
}

impl LetGo for Held {
    fn let_go(self) {
        let Held { mut parts } = self;
        while let Some(part) = parts.pop_front() {
            part.let_go();
        }
        parts.destroy_empty();
    }
}

#[tactic(auto, unfolding(crate::specs::Forms::blocks_of))]
pub fn nothing_held(alloc: Global) -> Held
    ensures { blocks_of result.parts.items ≡ [] }
{
    Held {
        parts: VecDeque::new(alloc),
    }
}

/// A part more at the end.
#[tactic(auto, using(crate::proofs::HeldLaws::one_more))]
pub fn hold(mut before: Held, part: Part) -> Result<Held, OutOfMemory>
    ensures { IfOk result (λ longer. blocks_of longer.parts.items ≡ blocks_of before.parts.items ++ plain part.block ∷ []) }
{
    match before.parts.push_back(part) {
        Ok(()) => Ok(before),
        Err(failed) => {
            let AllocFailed { value } = failed;
            value.let_go();
            before.let_go();
            Err(OutOfMemory)
        }
    }
}
