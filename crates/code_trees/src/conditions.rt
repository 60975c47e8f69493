//! Jumps by what is true.
ghost use Rattle.std.specs.Prelude.{◌≡◌, ◌+◌, ◌≤◌, ◌∷◌, [], IfOk};
ghost use Rattle.mesa_types.specs.Operators.{differ};
ghost use Rattle.code_forms.specs.declared.instruction.Instruction.TheVariants as i;
ghost use Rattle.code_rules.specs.OwnCode as own;
ghost use Rattle.code_blocks.specs.Blocks as tree;
ghost use Rattle.code_blocks.specs.Translation as spec;
ghost use Rattle.code_trees.specs.Excess.{excess};
ghost use Rattle.code_trees.specs.Plain.{plain};

use crate::block::{Code, Leap, Mark};
use crate::check_code::{is_opposite, put_comparison};
use crate::long_code::put_long_comparison;
use crate::making::{does, ends, out, pair};
use crate::part::Part;
use code_forms::Instruction;
use held_trees::both;
use mesa_base::{List, OutOfMemory, Relation};
use mesa_types::Base;
use std::alloc::Global;

/// Out to the end of a part where a relation holds, or where it does not.
#[tactic(auto, unfolding(mesa_types::specs::Operators::differ, crate::specs::Excess::excess, crate::specs::Excess::excess_in, crate::specs::Excess::excess_of))]
pub fn where_related(
    alloc: Global,
    base: Base,
    relation: Relation,
    sense: bool,
    part: u32,
) -> Result<Part, OutOfMemory>
    ensures { IfOk result (λ made. plain made.block ≡ spec.where_related base relation sense part) }
{
    let mut code = List::new(alloc);
    put_comparison(&mut code, base, relation)?;
    let sense = is_opposite(relation) != sense;
    pair(alloc, does(code), out(Leap::Where(sense), part))
}

/// The same of LONG numbers.
#[tactic(auto, unfolding(mesa_types::specs::Operators::differ, crate::specs::Excess::excess, crate::specs::Excess::excess_in, crate::specs::Excess::excess_of))]
pub fn where_long_related(
    alloc: Global,
    base: Base,
    relation: Relation,
    sense: bool,
    part: u32,
) -> Result<Part, OutOfMemory>
    ensures { IfOk result (λ made. plain made.block ≡ spec.where_long_related base relation sense part) }
{
    let mut code = List::new(alloc);
    put_long_comparison(&mut code, base, relation)?;
    let sense = is_opposite(relation) != sense;
    pair(alloc, does(code), out(Leap::Where(sense), part))
}

/// Jumps that lead past those given, which lead to the end of part 0.
#[tactic(auto, unfolding(crate::specs::Excess::excess, crate::specs::Excess::excess_in, crate::specs::Excess::excess_of))]
pub fn turned(alloc: Global, jumps: Part, part: u32) -> Result<Part, OutOfMemory>
    requires { excess (tree.Ends (tree.Here 0) (tree.Both (plain jumps.block) (tree.Out tree.Anyhow (part + 1)))) ≡ 0 }
    ensures { IfOk result (λ made. plain made.block ≡ tree.Ends (tree.Here 0) (tree.Both (plain jumps.block) (tree.Out tree.Anyhow (part + 1)))) }
{
    let jumps = pair(alloc, jumps, out(Leap::Anyhow, part + 1))?;
    ends(alloc, Mark::Here(0), jumps)
}

/// The value of jumps: the second word where they lead past the first.
#[tactic(auto, unfolding(crate::specs::Excess::excess, crate::specs::Excess::excess_in, crate::specs::Excess::excess_of))]
pub fn answer(alloc: Global, jumps: Part, word: u16, jumped: u16) -> Result<Part, OutOfMemory>
    requires { excess (spec.answer (plain jumps.block) word jumped) ≡ 0 }
    ensures { IfOk result (λ made. plain made.block ≡ spec.answer (plain jumps.block) word jumped) }
{
    let (jumps, (first, second)) = both(jumps, two_words(alloc, word, jumped))?;
    let (jumps, first) = both(jumps, pair(alloc, does(first), out(Leap::Anyhow, 1)))?;
    let jumps = pair(alloc, jumps, first)?;
    let jumps = ends(alloc, Mark::Here(0), jumps)?;
    let jumps = pair(alloc, jumps, does(second))?;
    ends(alloc, Mark::Here(1), jumps)
}

fn two_words(alloc: Global, first: u16, second: u16) -> Result<(Code, Code), OutOfMemory>
    ensures { IfOk result (λ made. (made.0 ≡ i.Lit first ∷ []) × (made.1 ≡ i.Lit second ∷ [])) }
{
    let first = List::of(alloc, Instruction::Lit { word: first })?;
    let second = List::of(alloc, Instruction::Lit { word: second })?;
    Ok((first, second))
}
