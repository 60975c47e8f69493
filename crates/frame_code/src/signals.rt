//! The signals of a module.
ghost use Rattle.std.specs.Prelude.{◌≡◌, map, All, IfOk};
ghost use Rattle.mesa_types.specs.Sound.{SignalIn};
ghost use Rattle.code_rules.specs.Modules.{kind_code, signal_code};

use crate::words::few_words;
use code_forms::{CodeKind, CodeSignal, CodeSignals};
use mesa_base::{List, OutOfMemory};
use mesa_types::{Item, ItemKind};
use std::alloc::Global;

pub(crate) fn kind_of(kind: ItemKind) -> CodeKind
    ensures { result ≡ kind_code kind }
{
    match kind {
        ItemKind::Procedure => CodeKind::Procedure,
        ItemKind::Signal => CodeKind::Signal,
        ItemKind::Error => CodeKind::Error,
    }
}

#[tactic(auto, using(crate::proofs::FieldWords::signal_takes_few, crate::proofs::FieldWords::signal_gives_few))]
fn signal_of(alloc: Global, item: &Item) -> Result<CodeSignal, OutOfMemory>
    requires { SignalIn item.now }
    ensures { IfOk result (λ made. made ≡ signal_code item.now) }
{
    Ok(CodeSignal {
        kind: kind_of(item.kind),
        name: item.name.copy(alloc)?,
        args: few_words(item.takes.as_slice()),
        results: few_words(item.gives.as_slice()),
    })
}

/// The entries of the signals and errors of a module, in order.
pub fn signals_of(alloc: Global, items: &[Item]) -> Result<CodeSignals, OutOfMemory>
    requires { All SignalIn items.now }
    ensures { IfOk result (λ made. made ≡ map signal_code items.now) }
{
    let mut signals = List::new(alloc);
    for item in items {
        signals.push(signal_of(alloc, item)?)?;
    }
    Ok(signals)
}
