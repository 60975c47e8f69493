//! What each phrase of a procedure lets past.

ghost use Rattle.std.specs.Prelude.{◌≡◌, length, IfOk};
ghost use Rattle.code_forms.specs.Ranges.{InOrder};
ghost use Rattle.survey_code.specs.Around.{AreBeyond};
ghost use Rattle.survey_code.specs.Passings.{AreEndings, ArePassings};

use crate::ending::ending_of;
use crate::surveyed::{Endings, Passing, Passings};
use code_forms::{Arm, CodeProcedure};
use mesa_base::{List, OutOfMemory};
use std::alloc::Global;

fn endings_of(
    alloc: Global,
    procedure: &CodeProcedure,
    marks: &[bool],
    arms: &[Arm],
) -> Result<Endings, OutOfMemory>
    requires order { InOrder procedure.now.code }
    requires count { length marks.now ≡ length procedure.now.code }
    ensures { IfOk result (AreEndings procedure.now marks.now arms.now) }
{
    let mut endings = List::new(alloc);
    for arm in arms {
        endings.push(ending_of(procedure, marks, arm))?;
    }
    Ok(endings)
}

/// What each phrase of a procedure lets past, where the marks tell which of its instructions are reached.
pub fn passings_of(
    alloc: Global,
    procedure: &CodeProcedure,
    marks: &[bool],
    beyonds: &[Option<u32>],
) -> Result<Passings, OutOfMemory>
    requires order { InOrder procedure.now.code }
    requires count { length marks.now ≡ length procedure.now.code }
    requires many { length beyonds.now ≡ length procedure.now.phrases }
    requires beyonds { AreBeyond procedure.now.phrases beyonds.now }
    ensures { IfOk result (ArePassings procedure.now marks.now) }
{
    let mut passings = List::new(alloc);
    for number in 0..procedure.phrases.len() {
        let arms = procedure.phrases.as_slice()[number].arms.as_slice();
        let endings = endings_of(alloc, procedure, marks, arms)?;
        passings.push(Passing {
            beyond: beyonds[number],
            endings,
        })?;
    }
    Ok(passings)
}
