//! Where variables lie.
ghost use Rattle.std.specs.Prelude.{◌≡◌, ◌+◌, ◌≤◌, [], ◌∷◌, ◌++◌, IfOk, OnOk};
ghost use Rattle.mesa_types.specs.Plain.{kinds_of};
ghost use Rattle.mesa_types.specs.Shapes.{join, words_before, words_in_all};
ghost use Rattle.code_rules.specs.Slots.{words_at, words_from};
ghost use Rattle.code_trees.specs.Routines.{kinds_laid};
ghost use Rattle.code_trees.specs.Starts.{ends_from};

use crate::layout::Layout;
use mesa_base::{List, Numbers, OutOfMemory};
use mesa_types::FieldType;
use std::alloc::Global;
use typed_answers::size_words;

/// Puts where each variable ends, the first of which lies behind so many words; tells where the last one ends.
#[tactic(auto, unfolding(crate::specs::Starts::ends_from, mesa_types::specs::Shapes::words_in_all), using(crate::proofs::VariableStarts::ends_with, crate::proofs::VariableStarts::words_with))]
fn put_ends(starts: &mut Numbers, words: u32, fields: &[FieldType]) -> Result<u32, OutOfMemory>
    requires { words + words_in_all (kinds_of fields.now) ≤ 65535 }
    ensures ends { OnOk result (starts.new ≡ starts.old ++ ends_from words (kinds_of fields.now)) }
    ensures words { IfOk result (λ end. end ≡ words + words_in_all (kinds_of fields.now)) }
{
    let mut end = words;
    for field in fields {
        end += size_words(&field.kind);
        starts.push(end)?;
    }
    Ok(end)
}

impl<'a> Layout<'a> {
    #[tactic(auto, using(crate::proofs::VariableStarts::ends_of_three, crate::proofs::VariableStarts::words_of_three))]
    pub fn new(
        alloc: Global,
        first: &'a [FieldType],
        second: &'a [FieldType],
        third: &'a [FieldType],
    ) -> Result<Layout<'a>, OutOfMemory>
        requires { words_in_all (join (kinds_of first.now) (join (kinds_of second.now) (kinds_of third.now))) ≤ 65535 }
        ensures { IfOk result (λ made. kinds_laid made ≡ join (kinds_of first.now) (join (kinds_of second.now) (kinds_of third.now))) }
    {
        let mut starts = List::of(alloc, 0u32)?;
        let words = put_ends(&mut starts, 0, first)?;
        let words = put_ends(&mut starts, words, second)?;
        let words = put_ends(&mut starts, words, third)?;
        Ok(Layout {
            first,
            second,
            third,
            starts,
            words,
        })
    }

    /// The words before a variable; behind the last one all.
    #[tactic(auto, using(crate::proofs::VariableStarts::start_at, crate::proofs::VariableStarts::start_behind, crate::proofs::VariableStarts::before_within))]
    pub fn start(&self, at: usize) -> u32
        ensures start { result ≡ words_before (kinds_laid self.now) at }
        ensures small { result ≤ 65535 }
    {
        match self.starts.get(at) {
            Some(start) => *start,
            None => self.words,
        }
    }

    /// The words of a variable.
    #[tactic(auto, using(crate::proofs::VariableStarts::words_between))]
    pub fn words_of(&self, at: u32) -> u32
        ensures { result ≡ words_at (kinds_laid self.now) at }
    {
        self.start((at as usize) + 1) - self.start(at as usize)
    }

    /// The words of so many variables from one on.
    #[tactic(auto, using(crate::proofs::VariableStarts::words_from_on))]
    pub fn words_from(&self, first: u32, count: u32) -> u32
        ensures { result ≡ words_from (kinds_laid self.now) first count }
    {
        self.start(first as usize + count as usize) - self.start(first as usize)
    }
}
