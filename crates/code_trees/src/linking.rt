//! The numbers of links.
ghost use Rattle.std.specs.Prelude.{◌≡◌, ◌+◌, [], ◌++◌, length, replicate, IfOk, OnOk};
ghost use Rattle.code_rules.specs.Links.{link_number, rank};
ghost use Rattle.code_trees.specs.LinkTables.{count_links, ranks_from, tables_from};

use crate::link_table::LinkTable;
use crate::links::Links;
use mesa_base::{List, Numbers, OutOfMemory};
use mesa_types::{Import, Imports};
use std::alloc::Global;

/// The sum of two numbers of links; where it has no place in 32 bits, that is want of memory.
pub fn sum(first: u32, second: u32) -> Result<u32, OutOfMemory>
    ensures { IfOk result (λ both. both ≡ first + second) }
{
    match first.checked_add(second) {
        Some(both) => Ok(both),
        None => Err(OutOfMemory),
    }
}

fn count(used: &[u32]) -> Result<u32, OutOfMemory>
    ensures { IfOk result (λ count. count ≡ length used.now) }
{
    match u32::try_from(used.len()) {
        Ok(count) => Ok(count),
        Err(_) => Err(OutOfMemory),
    }
}

/// Where none of so many items is used.
#[tactic(auto, using(crate::proofs::LinkRanks::one_more_unused, crate::proofs::LinkRanks::none_unused))]
fn unused(alloc: Global, items: usize, used: u32) -> Result<Numbers, OutOfMemory>
    ensures { IfOk result (λ ranks. ranks ≡ ranks_from used 0 items []) }
{
    let mut ranks = List::new(alloc);
    for item in 0..items {
        ranks.push(used)?;
    }
    Ok(ranks)
}

/// The rank of each of so many items among those that are used.
fn ranks(alloc: Global, items: usize, used: &[u32]) -> Result<Numbers, OutOfMemory>
    ensures { IfOk result (λ ranks. ranks ≡ ranks_from 0 0 items used.now) }
{
    let count = count(used)?;
    let mut ranks = unused(alloc, items, count)?;
    for at in (0..used.len()).rev() {
        let item = used[at] as usize;
        if item < items {
            ranks.set(item, at as u32);
        }
    }
    Ok(ranks)
}

/// How many numbers stand before one, found by going through them.
pub fn rank_of(used: &[u32], item: u32) -> Result<u32, OutOfMemory>
    ensures { IfOk result (λ found. found ≡ rank item used.now) }
{
    let mut before = 0u32;
    for number in used {
        if *number == item {
            return Ok(before);
        }
        before = sum(before, 1)?;
    }
    Ok(before)
}

fn table(alloc: Global, start: u32, import: &Import) -> Result<LinkTable, OutOfMemory>
    ensures start { IfOk result (λ made. made.start ≡ start) }
    ensures ranks { IfOk result (λ made. made.ranks ≡ ranks_from 0 0 (length import.now.face.items) import.now.used) }
{
    let ranks = ranks(alloc, import.face.items.len(), import.used.as_slice())?;
    Ok(LinkTable { start, ranks })
}

impl<'a> Links<'a> {
    /// Made once for a module.
    #[tactic(auto, unfolding(crate::specs::LinkTables::tables_from, crate::specs::LinkTables::count_links))]
    pub fn new(alloc: Global, imports: &'a Imports) -> Result<Links<'a>, OutOfMemory>
        ensures { IfOk result (λ made. made.imports.now ≡ imports.now) }
    {
        let mut tables = List::new(alloc);
        let mut links = 0u32;
        for import in imports.as_slice() {
            tables.push(table(alloc, links, import)?)?;
            links = sum(links, count(import.used.as_slice())?)?;
        }
        Ok(Links {
            imports,
            tables,
            count: links,
        })
    }

    /// The number of the link of an item of an import, both by number.
    #[tactic(auto, using(crate::proofs::LinkRanks::in_table, crate::proofs::LinkRanks::in_import, crate::proofs::LinkRanks::past_tables, crate::proofs::LinkRanks::past_imports))]
    pub fn number(&self, import: u32, item: u32) -> Result<u32, OutOfMemory>
        ensures { IfOk result (λ number. number ≡ link_number self.now.imports.now import item) }
    {
        match self.tables.get(import as usize) {
            None => Ok(self.count),
            Some(table) => match table.ranks.get(item as usize) {
                Some(rank) => {
                    let number = sum(table.start, *rank)?;
                    Ok(number)
                }
                None => match self.imports.get(import as usize) {
                    None => Ok(self.count),
                    Some(of) => {
                        let rank = rank_of(of.used.as_slice(), item)?;
                        let number = sum(table.start, rank)?;
                        Ok(number)
                    }
                },
            },
        }
    }
}
