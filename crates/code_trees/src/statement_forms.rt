//! Declarations, assignments, returns and jumps by what their parts are.
ghost use Rattle.std.specs.Prelude.{◌≡◌, ◌+◌, ◌≤◌, [], ◌∷◌, ◌++◌, map, IfOk};
ghost use Rattle.mesa_base.specs.Chain.{chain};
ghost use Rattle.mesa_types.specs.Plain.{kind_of, suffix};
ghost use Rattle.mesa_types.specs.Shapes.{words_in};
ghost use Rattle.mesa_types.specs.Typed as t;
ghost use Rattle.code_forms.specs.declared.instruction.Instruction.TheVariants as i;
ghost use Rattle.code_rules.specs.OwnCode as own;
ghost use Rattle.code_rules.specs.Slots as slots;
ghost use Rattle.code_blocks.specs.Blocks as tree;
ghost use Rattle.code_blocks.specs.Translation as spec;
ghost use Rattle.code_trees.specs.Excess.{excess, excess_in};
ghost use Rattle.code_trees.specs.Forms.{assign_of};
ghost use Rattle.code_trees.specs.Plain.{plain, point_of};
ghost use Rattle.code_trees.specs.Routines.{coded};

use crate::arranging::arranged;
use crate::block::{Code, Point};
use crate::forms::{followed, instructed, single};
use crate::making::{does, goes, pair, then};
use crate::part::Part;
use crate::routine::Routine;
use crate::slot_code::{put_spread, put_zeros, store, store_within};
use crate::suffix_forms::{at_element, fields_of, has_index};
use crate::sums::total;
use code_forms::Instruction;
use held_trees::{LetGo, both};
use mesa_base::{List, OutOfMemory};
use mesa_types::{Goal, Home, Suffix, TypeTree};
use std::alloc::Global;
use typed_answers::size_words;

#[tactic(auto, unfolding(crate::specs::Excess::excess_in), using(crate::proofs::Widths::zeros_same, mesa_types::proofs::KindWords::kind_words))]
fn zeros(
    alloc: Global,
    routine: &Routine,
    homes: &[Home],
    of: &TypeTree,
) -> Result<Code, OutOfMemory>
    requires { excess_in (slots.zero_code (coded routine.now) homes.now (words_in (kind_of of.now))) ≡ 0 }
    ensures { IfOk result (λ code. code ≡ slots.zero_code (coded routine.now) homes.now (words_in (kind_of of.now))) }
{
    let mut code = List::new(alloc);
    put_zeros(&mut code, routine, homes, u64::from(size_words(of)))?;
    Ok(code)
}

#[tactic(auto, unfolding(crate::specs::Excess::excess_in), using(crate::proofs::Widths::spread_same, mesa_types::proofs::KindWords::kind_words))]
fn spreads(
    alloc: Global,
    routine: &Routine,
    homes: &[Home],
    of: &TypeTree,
) -> Result<Code, OutOfMemory>
    requires { excess_in (slots.spread_code (coded routine.now) homes.now (words_in (kind_of of.now))) ≡ 0 }
    ensures { IfOk result (λ code. code ≡ slots.spread_code (coded routine.now) homes.now (words_in (kind_of of.now))) }
{
    let mut code = List::new(alloc);
    put_spread(&mut code, routine, homes, u64::from(size_words(of)))?;
    Ok(code)
}

/// Variables of a type, set to zero.
#[tactic(auto, unfolding(crate::specs::Excess::excess))]
pub fn declared(
    alloc: Global,
    routine: &Routine,
    homes: &[Home],
    of: &TypeTree,
) -> Result<Part, OutOfMemory>
    requires { excess (tree.Does (slots.zero_code (coded routine.now) homes.now (words_in (kind_of of.now)))) ≡ 0 }
    ensures { IfOk result (λ made. plain made.block ≡ tree.Does (slots.zero_code (coded routine.now) homes.now (words_in (kind_of of.now)))) }
{
    Ok(does(zeros(alloc, routine, homes, of)?))
}

/// Variables of a type, set to zero and then to a value.
#[tactic(auto, unfolding(crate::specs::Excess::excess))]
pub fn declared_as(
    alloc: Global,
    routine: &Routine,
    homes: &[Home],
    of: &TypeTree,
    value: Part,
) -> Result<Part, OutOfMemory>
    requires { excess (tree.Both (tree.Does (slots.zero_code (coded routine.now) homes.now (words_in (kind_of of.now)))) (tree.Both (plain value.block) (tree.Does (slots.spread_code (coded routine.now) homes.now (words_in (kind_of of.now)))))) ≡ 0 }
    ensures { IfOk result (λ made. plain made.block ≡ tree.Both (tree.Does (slots.zero_code (coded routine.now) homes.now (words_in (kind_of of.now)))) (tree.Both (plain value.block) (tree.Does (slots.spread_code (coded routine.now) homes.now (words_in (kind_of of.now)))))) }
{
    let (value, code) = both(value, spreads(alloc, routine, homes, of))?;
    let value = then(alloc, value, code)?;
    let (value, code) = both(value, zeros(alloc, routine, homes, of))?;
    pair(alloc, does(code), value)
}

/// An assignment to an element, at an offset on the operand stack.
#[tactic(auto, unfolding(crate::specs::Excess::excess, crate::specs::Excess::excess_in))]
fn assigned_within(
    alloc: Global,
    suffixes: &[Suffix],
    path: Part,
    value: Part,
    set: Instruction,
) -> Result<Part, OutOfMemory>
    requires { excess (spec.at_element (chain (map suffix suffixes.now) t.NoSuffix) (tree.Both (plain path.block) (tree.Both (plain value.block) (tree.Does (set ∷ []))))) ≡ 0 }
    ensures { IfOk result (λ made. plain made.block ≡ spec.at_element (chain (map suffix suffixes.now) t.NoSuffix) (tree.Both (plain path.block) (tree.Both (plain value.block) (tree.Does (set ∷ []))))) }
{
    let (path, value) = both(path, instructed(alloc, value, set))?;
    let value = followed(alloc, path, value)?;
    at_element(alloc, suffixes, value)
}

/// An assignment to a variable or a part of it; the path to the part has no code where there is no index on it.
#[tactic(auto, unfolding(crate::specs::Excess::excess, crate::specs::Excess::excess_in))]
pub fn assigned(
    alloc: Global,
    routine: &Routine,
    home: Home,
    suffixes: &[Suffix],
    path: Part,
    value: Part,
    words: u64,
) -> Result<Part, OutOfMemory>
    requires { excess (assign_of (coded routine.now) home (chain (map suffix suffixes.now) t.NoSuffix) words (plain path.block) (plain value.block)) ≡ 0 }
    ensures { IfOk result (λ made. plain made.block ≡ assign_of (coded routine.now) home (chain (map suffix suffixes.now) t.NoSuffix) words (plain path.block) (plain value.block)) }
{
    if has_index(suffixes) {
        let set = store_within(routine, home, words);
        assigned_within(alloc, suffixes, path, value, set)
    } else {
        path.let_go();
        let (value, fields) = both(value, fields_of(suffixes))?;
        instructed(alloc, value, store(routine, home, fields, words))
    }
}

#[tactic(auto, unfolding(mesa_types::specs::Typed::point_of))]
pub fn point_of(goal: Goal) -> Point
    ensures { point_of result ≡ t.point_of goal }
{
    match goal {
        Goal::PastStatement(statement) => Point::After(statement),
        Goal::ToLabel(label) => Point::At(label),
        Goal::ToReturn => Point::Leave,
    }
}

/// A jump out of so many arms. In the code they have 16 bits: where there are more around one another, memory has no room for them.
pub fn goes_out(arms: u32, point: Point) -> Result<Part, OutOfMemory>
    ensures { IfOk result (λ made. plain made.block ≡ tree.Goes arms (point_of point)) }
{
    if arms <= 65535 {
        Ok(goes(arms as u16, point))
    } else {
        Err(OutOfMemory)
    }
}

/// The results in order, which go to their variables, and the jump to the return.
#[tactic(auto, unfolding(crate::specs::Excess::excess, crate::specs::Excess::excess_in, crate::specs::Excess::excess_of), using(crate::proofs::OwnCode::excess_both))]
pub fn returned(
    alloc: Global,
    routine: &Routine,
    arms: u32,
    first: u32,
    of: Part,
    code: Code,
    words: u64,
) -> Result<Part, OutOfMemory>
    requires { excess (tree.Both (plain of.block) (tree.Both (tree.Does (code ++ i.StoreL (slots.local_slot (coded routine.now) first) words ∷ [])) (tree.Goes arms t.Leave))) ≡ 0 }
    ensures { IfOk result (λ made. plain made.block ≡ tree.Both (plain of.block) (tree.Both (tree.Does (code ++ i.StoreL (slots.local_slot (coded routine.now) first) words ∷ [])) (tree.Goes arms t.Leave))) }
{
    let set = Instruction::StoreL {
        slot: routine.locals.start(first as usize) as u16,
        words: words as u16,
    };
    let (of, code) = both(of, longer(code, set))?;
    let (of, leave) = both(of, goes_out(arms, Point::Leave))?;
    let (of, leave) = both(of, pair(alloc, does(code), leave))?;
    pair(alloc, of, leave)
}

/// The values in order, for the raiser.
#[tactic(auto, unfolding(crate::specs::Excess::excess, crate::specs::Excess::excess_in, crate::specs::Excess::excess_of), using(crate::proofs::OwnCode::excess_both))]
pub fn resumed(alloc: Global, of: Part, code: Code, words: u64) -> Result<Part, OutOfMemory>
    requires { excess (tree.Both (plain of.block) (tree.Does (code ++ i.Resume words ∷ []))) ≡ 0 }
    ensures { IfOk result (λ made. plain made.block ≡ tree.Both (plain of.block) (tree.Does (code ++ i.Resume words ∷ []))) }
{
    let (of, code) = both(
        of,
        longer(
            code,
            Instruction::Resume {
                words: words as u16,
            },
        ),
    )?;
    then(alloc, of, code)
}

/// Instructions with one more at the end.
fn longer(mut code: Code, last: Instruction) -> Result<Code, OutOfMemory>
    ensures { IfOk result (λ made. made ≡ code ++ last ∷ []) }
{
    code.push(last)?;
    Ok(code)
}

/// The end of an arm that rejects.
pub fn rejected(alloc: Global) -> Result<Part, OutOfMemory>
    ensures { IfOk result (λ made. plain made.block ≡ tree.Does (i.ArmEnd ∷ [])) }
{
    single(alloc, Instruction::ArmEnd)
}

/// The code that brings values into the order of their places, and their words together.
pub fn given(alloc: Global, places: &[u32], sizes: &[u64]) -> Result<(Code, u64), OutOfMemory>
    requires { excess_in (own.arrange_code places.now sizes.now) ≡ 0 }
    ensures code { IfOk result (λ made. made.0 ≡ own.arrange_code places.now sizes.now) }
    ensures words { IfOk result (λ made. made.1 ≡ own.total sizes.now) }
{
    let words = total(sizes)?;
    let code = arranged(alloc, places, sizes)?;
    Ok((code, words))
}
