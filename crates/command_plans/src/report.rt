//! The text of a plan, or the texts that name each other in a circle.

ghost use Rattle.std.specs.Prelude.{◌≡◌, ◌≢◌, ◌<◌, ◌++◌, [], length, map, flat_map, codes, All, IfOk, OnOk};
ghost use Rattle.command_passes.specs.command_rules.specs.Planning.{base_at, line};
ghost use Rattle.command_passes.specs.command_rules.specs.Planning as rules;
ghost use Rattle.command_plans.specs.Gathering.{CanBePlanned};
ghost use Rattle.command_plans.specs.Made.{IsPlainText};
ghost use Rattle.command_plans.specs.Reports.{Tells, TellsCycle};

use crate::gathered::Gathered;
use command_passes::command_rules::Trouble;
use command_passes::{Stop, file_named};
use include_checker::plan;
use include_rules::{Plan, PlanFault, TextEntries};
use mesa_base::{Bytes, List, Numbers, OutOfMemory, Texts};
use std::alloc::Global;

/// The base of the text of this number.
fn base_of(texts: &TextEntries, number: u32) -> &[u8]
    ensures { result.now ≡ base_at texts.now number }
{
    match texts.get(number as usize) {
        Some(text) => text.base.as_slice(),
        None => &[],
    }
}

/// Puts a line behind the others.
fn put_line(out: &mut Bytes, word: &str, name: &[u8]) -> Result<(), OutOfMemory>
    ensures { OnOk result (out.new ≡ out.old ++ line word.now name.now) }
{
    out.extend_from_slice(word.as_bytes())?;
    out.extend_from_slice(b" ")?;
    out.extend_from_slice(name)?;
    out.extend_from_slice(b"\n")
}

/// Puts a line for each of the texts of these numbers behind the others.
fn put_texts(
    out: &mut Bytes,
    word: &str,
    texts: &TextEntries,
    numbers: &[u32],
) -> Result<(), OutOfMemory>
    ensures { OnOk result (out.new ≡ out.old ++ flat_map (λ k. line word.now (base_at texts.now k)) numbers.now) }
{
    'numbers: for number in numbers {
        put_line(out, word, base_of(texts, *number))?;
    }
    Ok(())
}

/// Puts a line for each of these names behind the others.
fn put_names(out: &mut Bytes, word: &str, names: &[Bytes]) -> Result<(), OutOfMemory>
    ensures { OnOk result (out.new ≡ out.old ++ flat_map (line word.now) names.now) }
{
    'names: for name in names {
        put_line(out, word, name.as_slice())?;
    }
    Ok(())
}

/// The lines of a plan: the order, what is stale, and the files that are not there.
fn plan_lines(
    alloc: Global,
    texts: &TextEntries,
    missing: &Texts,
    plan: &Plan,
) -> Result<Bytes, OutOfMemory>
    ensures { IfOk result (λ text. text ≡ rules.plan_text texts.now plan.now.order plan.now.stale missing.now) }
{
    let mut out = List::new(alloc);
    put_texts(&mut out, "order", texts, plan.order.as_slice())?;
    put_texts(&mut out, "stale", texts, plan.stale.as_slice())?;
    put_names(&mut out, "missing", missing.as_slice())?;
    Ok(out)
}

/// The bases of the texts of these numbers.
fn bases_of(alloc: Global, texts: &TextEntries, numbers: &[u32]) -> Result<Texts, OutOfMemory>
    ensures { IfOk result (λ bases. bases ≡ map (base_at texts.now) numbers.now) }
{
    let mut bases = List::new(alloc);
    'numbers: for number in numbers {
        bases.push(List::from_slice(alloc, base_of(texts, *number))?)?;
    }
    Ok(bases)
}

/// What ends the call where texts name each other in a circle: the file of the first is refused.
fn circling(alloc: Global, texts: &TextEntries, cycle: &[u32]) -> Result<Stop, OutOfMemory>
    requires plain { All IsPlainText texts.now }
    requires some { 0 < length cycle.now }
    ensures { IfOk result (TellsCycle texts.now cycle.now) }
{
    let file = file_named(alloc, base_of(texts, cycle[0]), ".mesa")?;
    let bases = bases_of(alloc, texts, cycle)?;
    Ok(Stop::Refused(file, Trouble::Cycle(bases)))
}

/// The text of the plan of what was gathered; or what ends the call, where texts name each other in a circle.
pub(crate) fn text_of_plan(alloc: Global, gathered: &Gathered) -> Result<Bytes, Stop>
    requires { CanBePlanned gathered.now }
    ensures { Tells gathered.now result }
{
    let texts = &gathered.texts;
    match plan(alloc, texts, &gathered.found.files) {
        Ok(plan) => Ok(plan_lines(alloc, texts, &gathered.found.missing, &plan)?),
        Err(PlanFault::Cycle(cycle)) => Err(circling(alloc, texts, cycle.as_slice())?),
        Err(PlanFault::Memory) => Err(Stop::Memory),
    }
}
