//! Catch phrases and their arms.
ghost use Rattle.std.specs.Prelude.{◌≡◌, ◌++◌, OnOk};
ghost use Rattle.listing_rules.specs.Code.{phrase_head};

use crate::lines::{Word, put_line};
use crate::texts::{Listed, put_each};
use code_forms::{Arm, Phrase};
use mesa_base::{Bytes, OutOfMemory};

impl Listed for Arm {
    ghost use Rattle.listing_rules.specs.Code.{arm_line};

    ghost text = { arm_line };

    fn put(&self, out: &mut Bytes) -> Result<(), OutOfMemory> {
        put_line(
            out,
            &Word::Text("ARM"),
            &[
                Word::Offset(self.start),
                Word::Offset(self.end),
                Word::Number(self.slot as u64),
                Word::Number(self.words as u64),
                Word::Labels(&self.labels),
            ],
        )
    }
}

fn put_head(out: &mut Bytes, phrase: &Phrase) -> Result<(), OutOfMemory>
    ensures { OnOk result (out.new ≡ out.old ++ phrase_head phrase.now) }
{
    put_line(
        out,
        &Word::Text("PHRASE"),
        &[Word::Offset(phrase.from), Word::Offset(phrase.to)],
    )
}

impl Listed for Phrase {
    ghost use Rattle.listing_rules.specs.Code.{phrase_lines};

    ghost text = { phrase_lines };

    fn put(&self, out: &mut Bytes) -> Result<(), OutOfMemory> {
        put_head(out, self)?;
        put_each(out, self.arms.as_slice())
    }
}
