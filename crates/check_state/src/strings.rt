//! The distinct string literals of a module, each with its number.
ghost use Rattle.std.specs.Prelude.{◌≡◌, [], List as Items, ℕ, take, IfOk};
ghost use Rattle.interface_records.specs.check_scopes.specs.Shows.{means};
ghost use Rattle.check_rules.specs.Values.{number_in};

use interface_records::check_scopes::Names;
use mesa_types::mesa_base::limits::DISTINCT_STRINGS;
use mesa_types::mesa_base::{Bytes, List, OutOfMemory, Texts};
use std::alloc::Global;
use std::marker::Model;

/// The literals in the order of the text, with an index of their numbers: as many have one as a module may have.
#[derive(Drop)]
pub struct Strings {
    texts: Texts,
    index: Names<u16>,
}

impl Model for Strings {
    ghost use Rattle.std.specs.Prelude.{◌≡◌, List, ℕ};
    ghost use Rattle.interface_records.specs.check_scopes.specs.Shows.{means};
    ghost use Rattle.check_rules.specs.Values.{number_in};

    ghost Value = { List (List ℕ) };

    ghost view = { λ strings. strings.texts };

    ghost invariant = { λ strings. (x : List ℕ) → means strings.index x ≡ number_in x 0 strings.texts };
}

/// The number of each literal, that of its first place. Those behind the last number have none.
fn numbered(texts: &[Bytes], alloc: Global) -> Result<Names<u16>, OutOfMemory>
    ensures { IfOk result (λ index. (x : Items ℕ) → means index x ≡ number_in x 0 texts.now) }
{
    let mut index = Names::new(alloc);
    let mut number = 0u16;
    for text in texts {
        match number.checked_add(1) {
            None => return Ok(index),
            Some(next) => {
                index.declare_first(alloc, text.as_slice(), number)?;
                number = next;
            }
        }
    }
    Ok(index)
}

fn copied(texts: &[Bytes], alloc: Global) -> Result<Texts, OutOfMemory>
    ensures { IfOk result (λ copy. copy ≡ texts.now) }
{
    let mut copy = List::new(alloc);
    for text in texts {
        copy.push(List::from_slice(alloc, text.as_slice())?)?;
    }
    Ok(copy)
}

impl Strings {
    /// No literal.
    #[tactic(auto, unfolding(check_rules::specs::Values::number_in))]
    pub fn new(alloc: Global) -> Strings
        ensures { result ≡ [] }
    {
        Strings {
            texts: List::new(alloc),
            index: Names::new(alloc),
        }
    }

    /// These literals, in this order.
    pub fn of(alloc: Global, texts: Texts) -> Result<Strings, OutOfMemory>
        ensures { IfOk result (λ strings. strings ≡ texts) }
    {
        let index = numbered(texts.as_slice(), alloc)?;
        Ok(Strings { texts, index })
    }

    /// The literals that have a number.
    pub fn into_texts(self, alloc: Global) -> Result<Texts, OutOfMemory>
        ensures { IfOk result (λ texts. texts ≡ take DISTINCT_STRINGS self) }
    {
        let Strings { texts, index: _ } = self;
        if texts.len() <= DISTINCT_STRINGS {
            return Ok(texts);
        }
        copied(&texts.as_slice()[..DISTINCT_STRINGS], alloc)
    }

    /// The number of a literal, if it has one.
    pub fn number(&self, text: &[u8]) -> Option<u16>
        ensures { result ≡ number_in text.now 0 self.now }
    {
        self.index.get(text).copied()
    }
}
