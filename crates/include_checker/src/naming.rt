//! Which texts each text names.

ghost use Rattle.std.specs.Prelude.{◌≡◌, ◌≤◌, map, filter_map, length, IfOk, OnOk};
ghost use Rattle.std.specs.List.{AllZip};
ghost use Rattle.include_rules.specs.declared.entries.TextEntry.{TextEntry as Entry};
ghost use Rattle.include_rules.specs.Naming.{naming};
ghost use Rattle.include_rules.specs.Plans.{most_texts};
ghost use Rattle.include_checker.specs.Graphs.{IsGraph, LooksAs};
ghost use Rattle.include_checker.specs.Named.{Adds, FindsAs, number_in, number_of_item, rows_of};

use crate::left::is_left;
use include_rules::{TextEntries, TextEntry};
use mesa_base::{Bytes, List, Numbers, OutOfMemory, Texts};
use std::alloc::Global;
use syntax_trees::syntax::DirectoryItem;

/// For each text the texts that it names, none of them twice, in order.
pub type Graph = List<Numbers>;

fn number_in(bases: &[Bytes], base: &[u8]) -> Option<u32>
    requires { length bases.now ≤ most_texts }
    ensures { result ≡ number_in bases.now base.now }
{
    match bases.iter().position(|other| other.as_slice() == base) {
        Some(at) => Some(at as u32),
        None => None,
    }
}

fn number_of_item(bases: &[Bytes], item: &DirectoryItem) -> Option<u32>
    requires { length bases.now ≤ most_texts }
    ensures { result ≡ number_of_item bases.now item.now }
{
    if item.name.name.bytes() == b"IODefs".as_slice() {
        return None;
    }
    number_in(bases, item.file.as_slice())
}

// A DIRECTORY may name a text many thousand times, so a number that stands there already is not put once more.
fn add(row: &mut Numbers, number: Option<u32>) -> Result<(), OutOfMemory>
    ensures { OnOk result (Adds row.old row.new number) }
{
    let Some(number) = number else {
        return Ok(());
    };
    if is_left(row.as_slice(), number) {
        row.push(number)?;
    }
    Ok(())
}

// The texts that a DIRECTORY names.
fn row_of(
    alloc: Global,
    bases: &[Bytes],
    directory: &[DirectoryItem],
) -> Result<Numbers, OutOfMemory>
    requires { length bases.now ≤ most_texts }
    ensures { IfOk result (λ row. FindsAs row (filter_map (number_of_item bases.now) directory.now)) }
{
    let mut row = List::new(alloc);
    for item in directory {
        add(&mut row, number_of_item(bases, item))?;
    }
    Ok(row)
}

fn bases_of(alloc: Global, texts: &[TextEntry]) -> Result<Texts, OutOfMemory>
    ensures { IfOk result (λ bases. bases ≡ map (λ (t : Entry). t.base) texts.now) }
{
    let mut bases = List::new(alloc);
    for text in texts {
        bases.push(List::from_slice(alloc, text.base.as_slice())?)?;
    }
    Ok(bases)
}

fn rows_of(alloc: Global, bases: &[Bytes], texts: &[TextEntry]) -> Result<Graph, OutOfMemory>
    requires { length bases.now ≤ most_texts }
    ensures { IfOk result (λ names. AllZip FindsAs names (rows_of bases.now texts.now)) }
{
    let mut names = List::new(alloc);
    for text in texts {
        let row = row_of(alloc, bases, text.module.directory.as_slice())?;
        names.push(row)?;
    }
    Ok(names)
}

/// What each text names.
pub fn naming(alloc: Global, texts: &TextEntries) -> Result<Graph, OutOfMemory>
    requires { length texts.now ≤ most_texts }
    ensures graph { IfOk result IsGraph }
    ensures looks { IfOk result (λ names. LooksAs names (naming texts.now)) }
{
    let bases = bases_of(alloc, texts.as_slice())?;
    rows_of(alloc, bases.as_slice(), texts.as_slice())
}
