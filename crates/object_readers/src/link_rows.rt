//! The links of a module: one for each item of its imports that it uses.
ghost use Rattle.std.specs.Prelude.{◌≡◌, ◌+◌, ◌++◌, map, IfOk, OnOk};
ghost use Rattle.std.specs.Option.{option_copied};
ghost use Rattle.mesa_types.specs.Links.{items_used};
ghost use Rattle.mesa_types.specs.Types.{words_of, words_of_fields};
ghost use Rattle.object_readers.specs.Rows.{items_at};
ghost use Rattle.object_rules.specs.Parts.{kind_code, link_code, link_codes};

use code_forms::{CodeKind, CodeLink, CodeLinks};
use mesa_base::{List, OutOfMemory};
use mesa_types::{FieldType, Import, Item, ItemKind, TypeTree};
use std::alloc::Global;
use typed_answers::size_words;

fn kind_of(kind: ItemKind) -> CodeKind
    ensures { result ≡ kind_code kind }
{
    match kind {
        ItemKind::Procedure => CodeKind::Procedure,
        ItemKind::Signal => CodeKind::Signal,
        ItemKind::Error => CodeKind::Error,
    }
}

// The words of a type; where 32 bits can't count them, which is so of none in a file, that is want of memory.
fn words_of(t: &TypeTree) -> Result<u32, OutOfMemory>
    ensures { IfOk result (λ words. words ≡ words_of t.now) }
{
    let words = size_words(t);
    if words == u32::MAX {
        return Err(OutOfMemory);
    }
    Ok(words)
}

fn sum(words: u64, more: u32) -> Result<u64, OutOfMemory>
    ensures { IfOk result (λ both. both ≡ words + more) }
{
    match words.checked_add(u64::from(more)) {
        Some(both) => Ok(both),
        None => Err(OutOfMemory),
    }
}

// The words of parameters or results, however many; where 64 bits can't count them, that is want of memory.
fn all_words(fields: &[FieldType]) -> Result<u64, OutOfMemory>
    ensures { IfOk result (λ words. words ≡ words_of_fields fields.now) }
{
    let mut words = 0u64;
    for field in fields {
        words = sum(words, words_of(&field.kind)?)?;
    }
    Ok(words)
}

fn link_of(item: &Item) -> Result<CodeLink, OutOfMemory>
    ensures { IfOk result (λ made. made ≡ link_code item.now) }
{
    Ok(CodeLink {
        kind: kind_of(item.kind),
        args: all_words(item.takes.as_slice())?,
        results: all_words(item.gives.as_slice())?,
    })
}

fn put_link(item: Option<&Item>, links: &mut CodeLinks) -> Result<(), OutOfMemory>
    ensures { OnOk result (links.new ≡ links.old ++ map link_code (items_at (option_copied item.entry))) }
{
    match item {
        Some(item) => {
            let link = link_of(item)?;
            links.push(link)?;
            Ok(())
        }
        None => Ok(()),
    }
}

// Those of one import, behind the others.
fn put_used(import: &Import, links: &mut CodeLinks) -> Result<(), OutOfMemory>
    ensures { OnOk result (links.new ≡ links.old ++ map link_code (items_used import.now.face.items import.now.used)) }
{
    let used = import.used.as_slice();
    for number in used {
        put_link(import.face.items.get(*number as usize), links)?;
    }
    Ok(())
}

/// The links of a module with these imports, in order.
pub(crate) fn links(alloc: Global, imports: &[Import]) -> Result<CodeLinks, OutOfMemory>
    ensures { IfOk result (λ made. made ≡ link_codes imports.now) }
{
    let mut links = List::new(alloc);
    for import in imports {
        put_used(import, &mut links)?;
    }
    Ok(links)
}
