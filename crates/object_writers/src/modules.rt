//! Imports, exports and modules as bytes.
use crate::put::{Put, put_list};
use file_forms::FileWriter;
use interface_writers::put_face;
use mesa_base::OutOfMemory;
use mesa_types::{Export, Import, Pair};
use object_files::Object;

impl Put for u32 {
    ghost use Rattle.object_writers.specs.Spelling.{u32_bytes};

    ghost can_put = { λ number. Unit {0} };

    ghost spelling = { u32_bytes };

    fn put(&self, out: &mut FileWriter) -> Result<(), OutOfMemory> {
        out.u32(*self)
    }
}

impl Put for Import {
    ghost use Rattle.object_writers.specs.ObjectBytes.{ImportFits, import_bytes};

    ghost can_put = { ImportFits };

    ghost spelling = { import_bytes };

    #[tactic(auto, using(file_forms::proofs::WrittenLaws::appended_twice))]
    fn put(&self, out: &mut FileWriter) -> Result<(), OutOfMemory> {
        put_face(out, &self.face)?;
        put_list(out, self.used.as_slice())
    }
}

impl Put for Pair {
    ghost use Rattle.object_writers.specs.ObjectBytes.{pair_bytes};

    ghost can_put = { λ pair. Unit {0} };

    ghost spelling = { pair_bytes };

    #[tactic(auto, using(file_forms::proofs::WrittenLaws::appended_twice))]
    fn put(&self, out: &mut FileWriter) -> Result<(), OutOfMemory> {
        out.u32(self.item)?;
        out.u32(self.number)
    }
}

impl Put for Export {
    ghost use Rattle.object_writers.specs.ObjectBytes.{ExportFits, export_bytes};

    ghost can_put = { ExportFits };

    ghost spelling = { export_bytes };

    #[tactic(auto, using(file_forms::proofs::WrittenLaws::appended_twice))]
    fn put(&self, out: &mut FileWriter) -> Result<(), OutOfMemory> {
        put_face(out, &self.face)?;
        put_list(out, self.given.as_slice())
    }
}

impl Put for Object {
    ghost use Rattle.object_writers.specs.ObjectBytes.{ModuleFits, module_bytes};

    ghost can_put = { ModuleFits };

    ghost spelling = { module_bytes };

    #[tactic(auto, using(file_forms::proofs::WrittenLaws::appended_twice))]
    fn put(&self, out: &mut FileWriter) -> Result<(), OutOfMemory> {
        let code = self.code.code();
        out.name(&self.shape.name)?;
        put_list(out, self.shape.imports.as_slice())?;
        out.u16(code.global_words)?;
        put_list(out, code.signals.as_slice())?;
        put_list(out, code.strings.as_slice())?;
        put_list(out, code.procedures.as_slice())?;
        put_list(out, self.shape.exports.as_slice())
    }
}
