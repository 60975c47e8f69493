//! The plan.

ghost use Rattle.std.specs.Prelude.{◌≡◌, ◌≢◌, ◌≤◌, IfErr, IfOk, Ok, Err, length, map};
ghost use Rattle.include_rules.specs.Plans.{IsPlan, HasNoPlan, most_texts};
ghost use Rattle.include_rules.specs.Stale.{faced, stale};
ghost use Rattle.include_rules.specs.declared.plan.Plan.{Plan as ThePlan};
ghost use Rattle.include_rules.specs.declared.plan.PlanFault.{PlanFault as Fault};
ghost use Rattle.include_checker.specs.Arranging.{IsPlanBy, HasNoPlanBy};
ghost use Rattle.include_checker.specs.Graphs.{IsGraph};

use crate::arranging::{Arranged, arrange};
use crate::naming::{Graph, naming};
use crate::stale::stale;
use include_rules::{FileEntries, Plan, PlanFault, TextEntries, plans_come_once};
use mesa_base::Numbers;
use std::alloc::Global;

fn with_stale(
    alloc: Global,
    order: Numbers,
    texts: usize,
    files: &FileEntries,
) -> Result<Plan, PlanFault>
    requires { texts ≤ most_texts }
    ensures plan { IfOk result (λ p. p ≡ record { order = order; stale = stale texts (map faced files.now) }) }
    ensures fault { IfErr result (λ e. e ≡ PlanFault.Memory) }
{
    match stale(alloc, texts, files.as_slice()) {
        Ok(stale) => Ok(Plan { order, stale }),
        Err(_) => Err(PlanFault::Memory),
    }
}

// The plan of texts that name these.
fn planned(alloc: Global, names: &Graph, files: &FileEntries) -> Result<Plan, PlanFault>
    requires { IsGraph names.now }
    ensures found { IfOk result (IsPlanBy names.now files.now) }
    ensures cycle { IfErr result (λ e. e ≢ PlanFault.Memory → HasNoPlanBy names.now e) }
{
    match arrange(alloc, names) {
        Ok(Arranged::InOrder(order)) => with_stale(alloc, order, names.len(), files),
        Ok(Arranged::Circling(cycle)) => Err(PlanFault::Cycle(cycle)),
        Err(_) => Err(PlanFault::Memory),
    }
}

/// The plan of at most 64 texts with the files that were made of them: the order, in which again and again the first text is taken that names none
/// which is not yet taken, and the texts whose objects are stale. Where none can be taken and some are left, the cycle; or Memory.
pub fn plan(alloc: Global, texts: &TextEntries, files: &FileEntries) -> Result<Plan, PlanFault>
    requires { length texts.now ≤ most_texts }
    ensures found { IfOk result (IsPlan texts.now files.now) }
    ensures cycle { IfErr result (λ e. e ≢ PlanFault.Memory → HasNoPlan texts.now e) }
    ensures only { (p : ThePlan) → IsPlan texts.now files.now p → result ≢ Err PlanFault.Memory → result ≡ Ok p }
    ensures first { (e : Fault) → HasNoPlan texts.now e → result ≢ Err PlanFault.Memory → result ≡ Err e }
{
    plans_come_once();
    match naming(alloc, texts) {
        Ok(names) => planned(alloc, &names, files),
        Err(_) => Err(PlanFault::Memory),
    }
}
