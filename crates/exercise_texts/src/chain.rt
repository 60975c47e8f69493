//! The configuration of the exercise.

ghost use Rattle.std.specs.Prelude.{◌≡◌, ◌≤◌, ◌++◌, IfOk, OnOk, decimal};
ghost use Rattle.exercise_texts.specs.Texts as text;
ghost use Rattle.exercise_texts.specs.Texts.{link_line, chain_end};

use crate::texts::{CHAIN_HEAD, CHAIN_TAIL};
use mesa_base::{Bytes, Decimal, List, OutOfMemory};
use std::alloc::Global;

/// The text of Chain.config with so many links.
#[tactic(auto, using(crate::proofs::LinkLines::no_links, crate::proofs::LinkLines::one_more_link))]
pub(crate) fn chain_text(alloc: Global, links: u16) -> Result<Bytes, OutOfMemory>
    ensures { IfOk result (λ written. written ≡ text.chain_text links) }
{
    let mut written = List::from_slice(alloc, CHAIN_HEAD.as_bytes())?;
    for link in 0..links {
        put_link(&mut written, link as u64 + 1)?;
    }
    put_end(&mut written, links)?;
    Ok(written)
}

/// The line of a link, from 1 on.
fn put_link(written: &mut Bytes, link: u64) -> Result<(), OutOfMemory>
    requires { link ≤ 65535 }
    ensures { OnOk result (written.new ≡ written.old ++ link_line link) }
{
    put_number(written, "[r", link, "] _ a")?;
    put_number(written, "", link, ": Link[r")?;
    put_number(written, "", link + 1, "];\n")
}

/// The lines behind so many links.
fn put_end(written: &mut Bytes, links: u16) -> Result<(), OutOfMemory>
    ensures { OnOk result (written.new ≡ written.old ++ chain_end links) }
{
    put_number(written, "[r", links as u64 + 1, CHAIN_TAIL)
}

/// A number between two texts.
fn put_number(
    written: &mut Bytes,
    before: &str,
    number: u64,
    behind: &str,
) -> Result<(), OutOfMemory>
    ensures { OnOk result (written.new ≡ written.old ++ (before.now ++ (decimal number ++ behind.now))) }
{
    written.extend_from_slice(before.as_bytes())?;
    written.extend_from_slice(Decimal::of(number).as_bytes())?;
    written.extend_from_slice(behind.as_bytes())
}
