//! The code of a block.
ghost use Rattle.std.specs.Prelude.{◌≡◌, IfOk};
ghost use Rattle.code_trees.specs.Plain.{off, plain};
ghost use Rattle.code_writer.specs.Drafts.{Fits, Writes};
ghost use Rattle.code_writer.specs.Scopes.{env_at};

use crate::cursor::{Cursor, put, put_all};
use crate::draft::Draft;
use crate::leap::{goes_to, leap_to};
use crate::scope::{Level, end_of, enter, offset_of};
use code_forms::Instruction;
use code_trees::Block;
use mesa_base::OutOfMemory;

impl<'a> Draft<'a> {
    /// Writes a block from a cursor on, inside a scope, and gives the cursor behind it. The recursion is as deep as the tree.
    pub fn write(
        &mut self,
        block: &'a Block,
        around: usize,
        from: Cursor,
    ) -> Result<Cursor, OutOfMemory>
        requires sizes { off block.now ≡ 0 }
        requires fits { Fits (plain block.now) self.old around from }
        ensures { IfOk result (λ to. Writes (plain block.now) (env_at self.old.scopes.items around) from self.old to self.new) }
    {
        match block {
            Block::Does(code) => {
                let to = put_all(&mut self.entries, code.as_slice(), from)?;
                Ok(to)
            }
            Block::Calls(call, takes, puts, arms) => {
                self.add_phrase(arms, around, from.at, from.at + call.bytes())?;
                put(&mut self.entries, *call, from)?;
                Ok(from.behind_call(*call, *takes, *puts))
            }
            Block::Sequence(front, last) => {
                let mut cursor = from;
                for part in front.as_slice() {
                    cursor = self.write(part, around, cursor)?;
                }
                let to = self.write(last.get(), around, cursor)?;
                Ok(to)
            }
            Block::Ends(mark, bytes, part) => {
                let end = from.at + *bytes;
                let inner = enter(&mut self.scopes, Level::Part(mark, from.at, end), around)?;
                self.write(part.get(), inner, from)?;
                Ok(from.behind_part(mark, end))
            }
            Block::Out(leap, part) => {
                let target = end_of(self.scopes.as_slice(), around, *part);
                let to = put(&mut self.entries, leap_to(*leap, target), from)?;
                Ok(to)
            }
            Block::Goes(arms, point) => {
                let target = offset_of(self.scopes.as_slice(), around, *point);
                let to = put(&mut self.entries, goes_to(*arms, *point, target), from)?;
                Ok(to)
            }
            Block::Rounds(part) => {
                let end = self.write(part.get(), around, from)?;
                let to = put(
                    &mut self.entries,
                    Instruction::JumpBack { target: from.at },
                    end,
                )?;
                Ok(to)
            }
            Block::Enables(arms, bytes, part) => {
                self.enable(arms, around, from.at, *bytes)?;
                let to = self.write(part.get(), around, from)?;
                Ok(to)
            }
        }
    }
}
