//! The signals and errors of a module.
ghost use Rattle.std.specs.Prelude.{◌≡◌};
ghost use Rattle.file_forms.specs.Forms.{list, several, at_least};
ghost use Rattle.file_forms.specs.Reads.{Reads};
ghost use Rattle.object_rules.specs.ModuleForms as form;
ghost use Rattle.object_rules.specs.Numbers.{length_where};

use code_forms::{CodeKind, CodeSignal, CodeSignals};
use file_forms::{FileCursor, Stopped};
use mesa_base::{Field, List};
use std::alloc::Global;

// Kind: it is neither of a signal nor of an error.
#[tactic(auto, unfolding(object_rules::specs::ModuleForms::signal_kind))]
fn signal_kind(input: &mut FileCursor<'_>) -> Result<CodeKind, Stopped>
    ensures { Reads (form.signal_kind.read input.old.rest.now) result input.new.rest.now }
{
    let left = input.rest.len();
    match input.u8()? {
        2 => Ok(CodeKind::Signal),
        3 => Ok(CodeKind::Error),
        _ => Err(Stopped::Bad(Field::Kind, left)),
    }
}

fn may_give(kind: CodeKind, words: u16) -> bool
    ensures { result ≡ form.may_give kind words }
{
    match kind {
        CodeKind::Procedure | CodeKind::Signal => true,
        CodeKind::Error => words == 0,
    }
}

// Length: an error has results.
fn results(input: &mut FileCursor<'_>, kind: CodeKind) -> Result<u16, Stopped>
    ensures { Reads ((length_where 2 (form.may_give kind)).read input.old.rest.now) result input.new.rest.now }
{
    let left = input.rest.len();
    let words = input.u16()?;
    if !may_give(kind, words) {
        return Err(Stopped::Bad(Field::Length, left));
    }
    Ok(words)
}

#[tactic(auto, unfolding(object_rules::specs::ModuleForms::signal))]
fn signal(alloc: Global, input: &mut FileCursor<'_>) -> Result<CodeSignal, Stopped>
    ensures { Reads (form.signal.read input.old.rest.now) result input.new.rest.now }
{
    let kind = signal_kind(input)?;
    let name = input.name(alloc)?;
    let args = input.u16()?;
    let results = results(input, kind)?;
    Ok(CodeSignal {
        kind,
        name,
        args,
        results,
    })
}

fn each_signal(
    alloc: Global,
    input: &mut FileCursor<'_>,
    count: u32,
) -> Result<CodeSignals, Stopped>
    ensures { Reads ((several count (λ _. form.signal)).read input.old.rest.now) result input.new.rest.now }
{
    let mut all = List::new(alloc);
    'signals: for _ in 0..count {
        let signal = match signal(alloc, input) {
            Ok(signal) => signal,
            Err(why) => return Err(why),
        };
        all.push(signal)?;
    }
    Ok(all)
}

/// The signals of a module.
pub fn signals(alloc: Global, input: &mut FileCursor<'_>) -> Result<CodeSignals, Stopped>
    ensures { Reads ((list (at_least 0) (λ _. form.signal)).read input.old.rest.now) result input.new.rest.now }
{
    let count = input.count_from(0)?;
    each_signal(alloc, input, count)
}
