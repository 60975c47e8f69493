//! Signals, strings and procedures as bytes.
ghost use Rattle.std.specs.Prelude.{◌≡◌};
ghost use Rattle.object_rules.specs.ModuleForms.{number_of_kind};

use crate::code::put_code;
use crate::put::{Put, put_list};
use code_forms::{CodeKind, CodeProcedure, CodeSignal};
use file_forms::FileWriter;
use mesa_base::{Bytes, OutOfMemory};

fn kind_number(kind: CodeKind) -> u8
    ensures { result ≡ number_of_kind kind }
{
    match kind {
        CodeKind::Procedure => 1,
        CodeKind::Signal => 2,
        CodeKind::Error => 3,
    }
}

impl Put for CodeSignal {
    ghost use Rattle.object_writers.specs.CodeBytes.{SignalFits, signal_bytes};

    ghost can_put = { SignalFits };

    ghost spelling = { signal_bytes };

    #[tactic(auto, using(file_forms::proofs::WrittenLaws::appended_twice))]
    fn put(&self, out: &mut FileWriter) -> Result<(), OutOfMemory> {
        out.u8(kind_number(self.kind))?;
        out.name(&self.name)?;
        out.u16(self.args)?;
        out.u16(self.results)
    }
}

impl Put for Bytes {
    ghost use Rattle.object_writers.specs.CodeBytes.{TextFits, text_bytes};

    ghost can_put = { TextFits };

    ghost spelling = { text_bytes };

    #[tactic(auto, using(file_forms::proofs::WrittenLaws::appended_twice))]
    fn put(&self, out: &mut FileWriter) -> Result<(), OutOfMemory> {
        out.u16(self.len() as u16)?;
        out.raw(self.as_slice())
    }
}

impl Put for CodeProcedure {
    ghost use Rattle.object_writers.specs.CodeBytes.{ProcedureFits, procedure_bytes};

    ghost can_put = { ProcedureFits };

    ghost spelling = { procedure_bytes };

    #[tactic(auto, using(file_forms::proofs::WrittenLaws::appended_twice))]
    fn put(&self, out: &mut FileWriter) -> Result<(), OutOfMemory> {
        out.name(&self.name)?;
        out.u16(self.args)?;
        out.u16(self.results)?;
        out.u16(self.frame)?;
        out.u32(self.depth)?;
        put_code(out, self.code.as_slice())?;
        put_list(out, self.phrases.as_slice())
    }
}
