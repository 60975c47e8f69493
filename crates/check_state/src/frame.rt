//! The variables of a module or procedure so far, and how many words they take.
ghost use Rattle.std.specs.Prelude.{◌≡◌, IfOk, OnOk, length};
ghost use Rattle.mesa_types.specs.Plain.{kinds_of};
ghost use Rattle.mesa_types.specs.Shapes.{count_in, join, one, words_in_all};
ghost use Rattle.mesa_types.specs.Typed.{NoKinds};
ghost use Rattle.interface_records.specs.PlainTypes.{kind_of, plain};

use crate::counts::{next, sum};
use crate::growing::GrowingFields;
use crate::types::size;
use mesa_types::held_trees::LetGo;
use mesa_types::mesa_base::OutOfMemory;
use mesa_types::{FieldType, TypeTree};
use std::alloc::{AllocFailed, Global};
use std::mem::replace;

/// The variables of a module or procedure so far, in the order of their declarations, and how many words they take.
#[derive(Drop)]
pub struct Frame {
    pub fields: GrowingFields,
    pub words: u64,
    pub count: u32,
    ghost words_are: { words ≡ words_in_all (kinds_of fields) },
    ghost count_is: { count ≡ length fields },
}

impl Frame {
    #[tactic(auto, unfolding(mesa_types::specs::Shapes::words_in_all))]
    pub fn new(alloc: Global) -> Frame
        ensures { kinds_of result.fields ≡ NoKinds }
    {
        Frame {
            fields: GrowingFields::new(alloc),
            words: 0,
            count: 0,
        }
    }

    pub fn words(&self) -> u64
        ensures { result ≡ words_in_all (kinds_of self.now.fields) }
    {
        self.words
    }

    #[tactic(auto, using(crate::proofs::KindLaws::fields_counted))]
    pub fn count(&self) -> usize
        ensures { result ≡ count_in (kinds_of self.now.fields) }
    {
        self.count as usize
    }

    /// A variable more, of this type.
    pub fn push(&mut self, alloc: Global, kind: &TypeTree) -> Result<(), OutOfMemory>
        ensures { OnOk result (kinds_of self.new.fields ≡ join (kinds_of self.old.fields) (one (kind_of (plain kind.now)))) }
    {
        let words = sum(self.words, size(kind)?)?;
        let count = next(self.count)?;
        let kind = kind.copy(alloc)?;
        match self.fields.push(FieldType { name: None, kind }) {
            Ok(()) => {
                self.words = words;
                self.count = count;
                Ok(())
            }
            Err(failed) => {
                let AllocFailed { value } = failed;
                value.let_go();
                Err(OutOfMemory)
            }
        }
    }

    /// The same variables twice (`GrowingFields::twice`).
    pub fn twice(self, alloc: Global) -> Result<(Frame, Frame), OutOfMemory>
        ensures { IfOk result (λ both. (kinds_of both.0.fields ≡ kinds_of self.fields) × (kinds_of both.1.fields ≡ kinds_of self.fields)) }
    {
        let Frame {
            fields,
            words,
            count,
        } = self;
        let (first, second) = fields.twice(alloc)?;
        let first = Frame {
            fields: first,
            words,
            count,
        };
        let second = Frame {
            fields: second,
            words,
            count,
        };
        Ok((first, second))
    }

    /// The same variables once more.
    pub fn share(&mut self, alloc: Global) -> Result<Frame, OutOfMemory>
        ensures same { IfOk result (λ more. kinds_of more.fields ≡ kinds_of self.old.fields) }
        ensures stays { OnOk result (kinds_of self.new.fields ≡ kinds_of self.old.fields) }
    {
        let (same, more) = replace(self, Frame::new(alloc)).twice(alloc)?;
        *self = same;
        Ok(more)
    }
}
