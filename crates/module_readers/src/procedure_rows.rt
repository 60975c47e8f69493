//! The procedures of a module.
ghost use Rattle.std.specs.Prelude.{◌≡◌, ◌+◌, map, nat_le, IfOk};
ghost use Rattle.code_forms.specs.declared.limits.TheConstants.{FRAME_WORDS, STACK_WORDS};
ghost use Rattle.file_forms.specs.Forms.{list, several, at_least, between};
ghost use Rattle.file_forms.specs.Reads.{Reads, ReadsAs};
ghost use Rattle.object_rules.specs.ModuleForms as form;
ghost use Rattle.object_rules.specs.Numbers.{length_where};
ghost use Rattle.object_rules.specs.Parts.{procedure_part, procedure_code};

use crate::catching::phrases;
use crate::code::code;
use code_forms::limits::{FRAME_WORDS, STACK_WORDS};
use code_forms::{CodeLink, CodeProcedure, CodeProcedures, CodeSignal};
use file_forms::{FileCursor, Stopped};
use mesa_base::Field;
use std::alloc::Global;

// Length: the first procedure, which is the body, has arguments or results.
fn words(input: &mut FileCursor<'_>, before: &CodeProcedures) -> Result<u16, Stopped>
    ensures { Reads ((length_where 2 (form.may_have (map procedure_part before.now))).read input.old.rest.now) result input.new.rest.now }
{
    let left = input.rest.len();
    let words = input.u16()?;
    if before.len() == 0 && words != 0 {
        return Err(Stopped::Bad(Field::Length, left));
    }
    Ok(words)
}

// Length: the frame has fewer words than the arguments and results, or too many.
fn frame(input: &mut FileCursor<'_>, args: u16, results: u16) -> Result<u16, Stopped>
    ensures { Reads ((length_where 2 (between (args + results) FRAME_WORDS)).read input.old.rest.now) result input.new.rest.now }
{
    let least = u32::from(args) + u32::from(results);
    let left = input.rest.len();
    let words = input.u16()?;
    if u32::from(words) < least || words > FRAME_WORDS {
        return Err(Stopped::Bad(Field::Length, left));
    }
    Ok(words)
}

// Length: the operand stack has too many words.
fn depth(input: &mut FileCursor<'_>) -> Result<u32, Stopped>
    ensures { Reads ((length_where 4 (λ n. nat_le n STACK_WORDS)).read input.old.rest.now) result input.new.rest.now }
{
    let left = input.rest.len();
    let words = input.u32()?;
    if words > STACK_WORDS {
        return Err(Stopped::Bad(Field::Length, left));
    }
    Ok(words)
}

#[tactic(auto, unfolding(object_rules::specs::ModuleForms::procedure))]
fn procedure(
    alloc: Global,
    input: &mut FileCursor<'_>,
    signals: &[CodeSignal],
    links: &[CodeLink],
    before: &CodeProcedures,
) -> Result<CodeProcedure, Stopped>
    ensures read { ReadsAs procedure_part ((form.procedure signals.now links.now (map procedure_part before.now)).read input.old.rest.now) result input.new.rest.now }
    ensures order { IfOk result (λ p. p ≡ procedure_code (procedure_part p)) }
{
    let name = input.name(alloc)?;
    let args = words(input, before)?;
    let results = words(input, before)?;
    let frame = frame(input, args, results)?;
    let depth = depth(input)?;
    let code = code(alloc, input)?;
    let phrases = phrases(alloc, input, signals, links)?;
    Ok(CodeProcedure {
        name,
        args,
        results,
        frame,
        depth,
        code,
        phrases,
    })
}

fn each_procedure(
    alloc: Global,
    input: &mut FileCursor<'_>,
    signals: &[CodeSignal],
    links: &[CodeLink],
    count: u32,
) -> Result<CodeProcedures, Stopped>
    ensures read { ReadsAs (map procedure_part) ((several count (form.procedure signals.now links.now)).read input.old.rest.now) result input.new.rest.now }
    ensures order { IfOk result (λ all. all ≡ map procedure_code (map procedure_part all)) }
{
    let mut all = CodeProcedures::new(alloc);
    'procedures: for _ in 0..count {
        let procedure = match procedure(alloc, input, signals, links, &all) {
            Ok(procedure) => procedure,
            Err(why) => return Err(why),
        };
        all.push(procedure)?;
    }
    Ok(all)
}

/// The procedures of a module with these signals and links. Length: there is none.
pub fn procedures(
    alloc: Global,
    input: &mut FileCursor<'_>,
    signals: &[CodeSignal],
    links: &[CodeLink],
) -> Result<CodeProcedures, Stopped>
    ensures read { ReadsAs (map procedure_part) ((list (at_least 1) (form.procedure signals.now links.now)).read input.old.rest.now) result input.new.rest.now }
    ensures order { IfOk result (λ all. all ≡ map procedure_code (map procedure_part all)) }
{
    let count = input.count_from(1)?;
    each_procedure(alloc, input, signals, links, count)
}
