//! The exports of a module.
ghost use Rattle.std.specs.Prelude.{◌≡◌, ◌&&◌, map, length, nat_eq, option_map, slice_get};
ghost use Rattle.std.specs.Option.{option_copied};
ghost use Rattle.file_forms.specs.Forms.{list, several, at_least};
ghost use Rattle.file_forms.specs.Reads.{Reads};
ghost use Rattle.mesa_types.specs.Types.{words_of_fields};
ghost use Rattle.object_rules.specs.ModuleForms as form;
ghost use Rattle.object_rules.specs.Numbers.{number_where};
ghost use Rattle.object_rules.specs.Parts.{procedure_part};

use crate::import_rows::is_next;
use code_forms::{CodeKind, CodeProcedure, CodeProcedures, CodeSignal, CodeSignals};
use file_forms::{FileCursor, Seen, Stopped};
use held_trees::{LetGo, both, pushed};
use interface_readers::face;
use mesa_base::{Field, List};
use mesa_types::{Export, Exports, FieldType, Item, ItemKind, Items, Pair, Pairs};
use std::alloc::Global;
use typed_answers::fields_words;

fn has_words(fields: &[FieldType], words: u16) -> bool
    ensures { result ≡ nat_eq words (words_of_fields fields.now) }
{
    fields_words(fields) == u32::from(words)
}

/// Whether an item takes and gives so many words.
pub(crate) fn has_sizes(item: &Item, args: u16, results: u16) -> bool
    ensures { result ≡ form.has_sizes item.now args results }
{
    has_words(item.takes.as_slice(), args) && has_words(item.gives.as_slice(), results)
}

fn is_of_kind(item: ItemKind, kind: CodeKind) -> bool
    ensures { result ≡ form.is_of_kind item kind }
{
    match (item, kind) {
        (ItemKind::Procedure, CodeKind::Procedure) => true,
        (ItemKind::Signal, CodeKind::Signal) => true,
        (ItemKind::Error, CodeKind::Error) => true,
        _ => false,
    }
}

fn procedure_gives(item: &Item, procedure: Option<&CodeProcedure>) -> bool
    ensures { result ≡ form.procedure_gives item.now (option_map procedure_part (option_copied procedure.entry)) }
{
    match procedure {
        Some(procedure) => has_sizes(item, procedure.args, procedure.results),
        None => false,
    }
}

fn signal_gives(item: &Item, signal: Option<&CodeSignal>) -> bool
    ensures { result ≡ form.signal_gives item.now (option_copied signal.entry) }
{
    match signal {
        Some(signal) => {
            is_of_kind(item.kind, signal.kind) && has_sizes(item, signal.args, signal.results)
        }
        None => false,
    }
}

/// Whether a module with these signals and procedures gives the item under the number: a procedure above 0, or a signal.
#[tactic(auto, using(crate::proofs::Lookups::part_at))]
pub fn gives(signals: &CodeSignals, procedures: &CodeProcedures, item: &Item, number: u32) -> bool
    ensures { result ≡ form.gives_as item.now.kind signals.now (map procedure_part procedures.now) item.now number }
{
    match item.kind {
        ItemKind::Procedure => {
            number > 0 && procedure_gives(item, procedures.get(number as usize))
        }
        ItemKind::Signal => signal_gives(item, signals.get(number as usize)),
        ItemKind::Error => signal_gives(item, signals.get(number as usize)),
    }
}

fn last_item(pairs: &Pairs) -> Option<u32>
    ensures { result ≡ form.last_item pairs.now }
{
    match pairs.get(pairs.len().saturating_sub(1)) {
        Some(pair) => Some(pair.item),
        None => None,
    }
}

// Number: the interface has no such item, or the item isn't behind the one before.
fn next_item(input: &mut FileCursor<'_>, items: &Items, before: &Pairs) -> Result<u32, Stopped>
    ensures { Reads ((number_where 4 (form.is_next (length items.now) (form.last_item before.now))).read input.old.rest.now) result input.new.rest.now }
{
    let left = input.rest.len();
    let number = input.u32()?;
    if !is_next(items.len(), last_item(before), number) {
        return Err(Stopped::Bad(Field::Number, left));
    }
    Ok(number)
}

fn gives_item(
    signals: &CodeSignals,
    procedures: &CodeProcedures,
    item: Option<&Item>,
    number: u32,
) -> bool
    ensures { result ≡ form.gives_item signals.now (map procedure_part procedures.now) (option_copied item.entry) number }
{
    match item {
        Some(item) => gives(signals, procedures, item, number),
        None => false,
    }
}

// Number: the module has no such procedure above 0 or signal, or it isn't of the item's kind and sizes.
fn giver(
    input: &mut FileCursor<'_>,
    signals: &CodeSignals,
    procedures: &CodeProcedures,
    item: Option<&Item>,
) -> Result<u32, Stopped>
    ensures { Reads ((number_where 4 (form.gives_item signals.now (map procedure_part procedures.now) (option_copied item.entry))).read input.old.rest.now) result input.new.rest.now }
{
    let left = input.rest.len();
    let number = input.u32()?;
    if !gives_item(signals, procedures, item, number) {
        return Err(Stopped::Bad(Field::Number, left));
    }
    Ok(number)
}

#[tactic(auto, unfolding(object_rules::specs::ModuleForms::given))]
fn given(
    input: &mut FileCursor<'_>,
    signals: &CodeSignals,
    procedures: &CodeProcedures,
    items: &Items,
    before: &Pairs,
) -> Result<Pair, Stopped>
    ensures { Reads ((form.given signals.now (map procedure_part procedures.now) items.now before.now).read input.old.rest.now) result input.new.rest.now }
{
    let item = next_item(input, items, before)?;
    let number = giver(input, signals, procedures, items.get(item as usize))?;
    Ok(Pair { item, number })
}

fn each_given(
    alloc: Global,
    input: &mut FileCursor<'_>,
    signals: &CodeSignals,
    procedures: &CodeProcedures,
    items: &Items,
    count: u32,
) -> Result<Pairs, Stopped>
    ensures { Reads ((several count (form.given signals.now (map procedure_part procedures.now) items.now)).read input.old.rest.now) result input.new.rest.now }
{
    let mut all = List::new(alloc);
    'pairs: for _ in 0..count {
        let pair = match given(input, signals, procedures, items, &all) {
            Ok(pair) => pair,
            Err(why) => return Err(why),
        };
        all.push(pair)?;
    }
    Ok(all)
}

fn givens(
    alloc: Global,
    input: &mut FileCursor<'_>,
    signals: &CodeSignals,
    procedures: &CodeProcedures,
    items: &Items,
) -> Result<Pairs, Stopped>
    ensures { Reads ((list (at_least 0) (form.given signals.now (map procedure_part procedures.now) items.now)).read input.old.rest.now) result input.new.rest.now }
{
    let count = input.count_from(0)?;
    each_given(alloc, input, signals, procedures, items, count)
}

#[tactic(auto, unfolding(object_rules::specs::ModuleForms::export_form))]
fn export(
    alloc: Global,
    input: &mut FileCursor<'_>,
    version: u8,
    signals: &CodeSignals,
    procedures: &CodeProcedures,
) -> Result<Export, Stopped>
    ensures { Reads ((form.export_form version signals.now (map procedure_part procedures.now)).read input.old.rest.now) result input.new.rest.now }
{
    let mut seen = Seen::new(alloc);
    let face = face(alloc, input, version, &mut seen)?;
    let given = givens(alloc, input, signals, procedures, &face.items);
    let (face, given) = both(face, given)?;
    Ok(Export { face, given })
}

fn each_export(
    alloc: Global,
    input: &mut FileCursor<'_>,
    version: u8,
    signals: &CodeSignals,
    procedures: &CodeProcedures,
    count: u32,
) -> Result<Exports, Stopped>
    ensures { Reads ((several count (λ _. form.export_form version signals.now (map procedure_part procedures.now))).read input.old.rest.now) result input.new.rest.now }
{
    let mut all = List::new(alloc);
    'exports: for _ in 0..count {
        let export = match export(alloc, input, version, signals, procedures) {
            Ok(export) => export,
            Err(why) => {
                all.let_go();
                return Err(why);
            }
        };
        all = pushed(all, export)?;
    }
    Ok(all)
}

/// The exports of a module with these signals and procedures.
pub(crate) fn exports(
    alloc: Global,
    input: &mut FileCursor<'_>,
    version: u8,
    signals: &CodeSignals,
    procedures: &CodeProcedures,
) -> Result<Exports, Stopped>
    ensures { Reads ((list (at_least 0) (λ _. form.export_form version signals.now (map procedure_part procedures.now))).read input.old.rest.now) result input.new.rest.now }
{
    let count = input.count_from(0)?;
    each_export(alloc, input, version, signals, procedures, count)
}
