//! Calls, raises and labels.
ghost use Rattle.std.specs.Prelude.{◌≡◌, ◌++◌, map, IfOk};
ghost use Rattle.code_rules.specs.Links as coding;

use crate::links::Links;
use code_forms::Instruction;
use mesa_base::{List, OutOfMemory};
use mesa_types::{Callee, Raised};
use std::alloc::Global;

pub fn call_code(links: &Links, callee: Callee) -> Result<Instruction, OutOfMemory>
    ensures { IfOk result (λ call. call ≡ coding.call_code links.now.imports.now callee) }
{
    match callee {
        Callee::OwnProcedure(procedure) => Ok(Instruction::Call { procedure }),
        Callee::LinkedProcedure(import, item) => {
            let link = links.number(import, item)?;
            Ok(Instruction::CallLink { link })
        }
    }
}

pub fn raise_code(links: &Links, raised: Raised) -> Result<Instruction, OutOfMemory>
    ensures { IfOk result (λ raise. raise ≡ coding.raise_code links.now.imports.now raised) }
{
    match raised {
        Raised::OwnSignal(signal) => Ok(Instruction::Raise { signal }),
        Raised::LinkedSignal(import, item) => {
            let link = links.number(import, item)?;
            Ok(Instruction::RaiseLink { link })
        }
        Raised::TheBoundsFault => Ok(Instruction::RaiseHost { fault: 0 }),
        Raised::TheZeroDivisor => Ok(Instruction::RaiseHost { fault: 1 }),
        Raised::TheUnnamed => Ok(Instruction::RaiseHost { fault: 2 }),
    }
}

fn label_code(links: &Links, label: mesa_types::Label) -> Result<code_forms::Label, OutOfMemory>
    ensures { IfOk result (λ made. made ≡ coding.label_code links.now.imports.now label) }
{
    Ok(match label {
        mesa_types::Label::OnAny => code_forms::Label::Any,
        mesa_types::Label::OnUnwind => code_forms::Label::Unwind,
        mesa_types::Label::OnOwn(signal) => code_forms::Label::Own(signal),
        mesa_types::Label::OnLinked(import, item) => {
            code_forms::Label::Link(links.number(import, item)?)
        }
        mesa_types::Label::OnBounds => code_forms::Label::BoundsFault,
        mesa_types::Label::OnZero => code_forms::Label::ZeroDivisor,
    })
}

/// The labels of an arm.
pub fn labels(
    alloc: Global,
    links: &Links,
    labels: &[mesa_types::Label],
) -> Result<code_forms::Labels, OutOfMemory>
    ensures { IfOk result (λ made. made ≡ map (coding.label_code links.now.imports.now) labels.now) }
{
    let mut made = List::new(alloc);
    for label in labels {
        made.push(label_code(links, *label)?)?;
    }
    Ok(made)
}
