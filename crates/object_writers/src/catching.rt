//! Labels, arms and catch phrases as bytes.
use crate::put::{Put, put_list};
use code_forms::{Arm, Label, Phrase};
use file_forms::FileWriter;
use mesa_base::OutOfMemory;

impl Put for Label {
    ghost use Rattle.object_writers.specs.CodeBytes.{label_bytes};

    ghost can_put = { λ label. Unit {0} };

    ghost spelling = { label_bytes };

    #[tactic(auto, using(file_forms::proofs::WrittenLaws::appended_twice))]
    fn put(&self, out: &mut FileWriter) -> Result<(), OutOfMemory> {
        match *self {
            Label::Any => out.u8(1),
            Label::Unwind => out.u8(2),
            Label::Own(signal) => {
                out.u8(3)?;
                out.u32(signal)
            }
            Label::Link(link) => {
                out.u8(4)?;
                out.u32(link)
            }
            Label::BoundsFault => out.u8(5),
            Label::ZeroDivisor => out.u8(6),
        }
    }
}

impl Put for Arm {
    ghost use Rattle.object_writers.specs.CodeBytes.{ArmIsFew, arm_bytes};

    ghost can_put = { ArmIsFew };

    ghost spelling = { arm_bytes };

    #[tactic(auto, using(file_forms::proofs::WrittenLaws::appended_twice))]
    fn put(&self, out: &mut FileWriter) -> Result<(), OutOfMemory> {
        put_list(out, self.labels.as_slice())?;
        out.u16(self.slot)?;
        out.u16(self.words)?;
        out.u32(self.start)?;
        out.u32(self.end)
    }
}

impl Put for Phrase {
    ghost use Rattle.object_writers.specs.CodeBytes.{PhraseIsFew, phrase_bytes};

    ghost can_put = { PhraseIsFew };

    ghost spelling = { phrase_bytes };

    #[tactic(auto, using(file_forms::proofs::WrittenLaws::appended_twice))]
    fn put(&self, out: &mut FileWriter) -> Result<(), OutOfMemory> {
        out.u32(self.from)?;
        out.u32(self.to)?;
        put_list(out, self.arms.as_slice())
    }
}
