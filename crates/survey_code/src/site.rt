//! Where signals may come in a procedure.

ghost use Rattle.std.specs.Prelude.{◌≡◌, ◌++◌, length, IfOk, OnOk};
ghost use Rattle.survey_code.specs.Around.{ArePositions};
ghost use Rattle.survey_code.specs.Leads.{listed};
ghost use Rattle.survey_code.specs.Listing.{AreSites, site_of};

use crate::event::event_of;
use crate::surveyed::{Site, Sites};
use code_forms::{CodeProcedure, Instruction};
use mesa_base::{List, OutOfMemory};
use std::alloc::Global;

fn site_of(reached: bool, position: Option<u32>, instruction: Instruction) -> Option<Site>
    ensures { result ≡ site_of reached position instruction }
{
    if !reached {
        return None;
    }
    match event_of(instruction) {
        Some(event) => Some(Site { position, event }),
        None => None,
    }
}

fn add(sites: &mut Sites, site: Option<Site>) -> Result<(), OutOfMemory>
    ensures { OnOk result (sites.new ≡ sites.old ++ listed site) }
{
    if let Some(site) = site {
        sites.push(site)?;
    }
    Ok(())
}

/// The sites of a procedure, where the marks tell which of its instructions are reached.
pub fn sites_of(
    alloc: Global,
    procedure: &CodeProcedure,
    marks: &[bool],
    positions: &[Option<u32>],
) -> Result<Sites, OutOfMemory>
    requires many_marks { length marks.now ≡ length procedure.now.code }
    requires many_positions { length positions.now ≡ length procedure.now.code }
    requires positions { ArePositions procedure.now positions.now }
    ensures { IfOk result (λ sites. AreSites procedure.now marks.now (length procedure.now.code) sites) }
{
    let entries = procedure.code.as_slice();
    let mut sites = List::new(alloc);
    for number in 0..entries.len() {
        let site = site_of(
            marks[number],
            positions[number],
            entries[number].instruction,
        );
        add(&mut sites, site)?;
    }
    Ok(sites)
}
