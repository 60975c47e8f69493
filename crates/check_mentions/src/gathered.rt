//! What is gathered of a text: its string literals, each where it stands first, and the tokens of its records and enumerations.
ghost use Rattle.std.specs.Prelude.{◌≡◌, [], ◌∷◌, ◌++◌, OnOk};
ghost use Rattle.check_mentions.specs.Gathering.{found, IsIndexed, Leaves};
ghost use Rattle.check_rules.specs.Mentions as spec;
ghost use Rattle.check_mentions.specs.Parts.{ahead, of_part};

use crate::parts::{Part, Parts};
use check_scopes::Names;
use mesa_base::{List, Numbers, OutOfMemory, Texts};
use std::alloc::Global;

/// The literals with an index of them, and the tokens.
#[derive(Drop)]
pub struct Gathered {
    pub texts: Texts,
    pub seen: Names<()>,
    pub origins: Numbers,
}

impl Gathered {
    /// Nothing. It takes no memory.
    pub fn new(alloc: Global) -> Gathered
        ensures indexed { IsIndexed result }
        ensures texts { result.texts ≡ [] }
        ensures origins { result.origins ≡ [] }
    {
        Gathered {
            texts: List::new(alloc),
            seen: Names::new(alloc),
            origins: List::new(alloc),
        }
    }

    /// A literal, which is put behind the others unless it is one of them.
    fn text(&mut self, alloc: Global, text: &[u8]) -> Result<(), OutOfMemory>
        requires { IsIndexed self.old }
        ensures { OnOk result (Leaves self.old (spec.Mention.Text text.now ∷ []) self.new []) }
    {
        if self.seen.has(text) {
            return Ok(());
        }
        let copy = List::from_slice(alloc, text)?;
        self.texts.push(copy)?;
        self.seen.declare(alloc, text, ())
    }

    fn made(&mut self, token: u32) -> Result<(), OutOfMemory>
        requires { IsIndexed self.old }
        ensures { OnOk result (Leaves self.old (spec.Mention.Made token ∷ []) self.new []) }
    {
        self.origins.push(token)?;
        Ok(())
    }

    /// Reads one part: a mention is gathered, and what a tree is made of is put before the other parts.
    fn part<'a>(
        &mut self,
        alloc: Global,
        part: Part<'a>,
        parts: &mut Parts<'a>,
    ) -> Result<(), OutOfMemory>
        requires { IsIndexed self.old }
        ensures { OnOk result (Leaves self.old (of_part part.entry ++ ahead parts.old) self.new (ahead parts.new)) }
    {
        match part {
            Part::Text(text) => self.text(alloc, text),
            Part::Made(token) => self.made(token),
            tree => parts.open(tree),
        }
    }

    /// Reads all parts.
    pub fn all(&mut self, alloc: Global, mut parts: Parts<'_>) -> Result<(), OutOfMemory>
        requires { IsIndexed self.old }
        ensures { OnOk result (Leaves self.old (ahead parts.entry) self.new []) }
    {
        'turns: for _ in 0..u64::MAX {
            match parts.next() {
                None => return Ok(()),
                Some(part) => self.part(alloc, part, &mut parts)?,
            }
        }
        Err(OutOfMemory)
    }
}
