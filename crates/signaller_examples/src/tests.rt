//! A hundred ranges, and the innermost phrase at each offset.
ghost use Rattle.std.specs.Prelude.{◌≡◌, ◌<◌, ◌≤◌, IfOk};
ghost use Rattle.signaller_examples.specs.Apart.{apart};

use code_forms::{Arms, CatchTable, Phrase};
use mesa_base::{OutOfMemory, Steps};
use signaller::{index, innermost};
use std::alloc::Global;
use std::marker::Brand;
use std::process::Abort;
use std::sync::ledger::{Blank, Ledger};
use std::test::Fail;

#[tactic(auto, using(crate::proofs::Disjoint::apart_more))]
// Range k is from 10 k + 2 to 10 k + 8.
fn ranges(alloc: Global, count: u32) -> Result<CatchTable, OutOfMemory>
    requires { count ≤ 1000 }
    ensures { IfOk result (λ table. table ≡ apart count) }
{
    let mut table = CatchTable::new(alloc);
    for k in 0..count {
        table.push(Phrase {
            from: 10 * k + 2,
            to: 10 * k + 8,
            arms: Arms::new(alloc),
        })?;
    }
    Ok(table)
}

fn expected(at: u32, count: u32) -> Option<u32> {
    let within = at % 10;
    if at / 10 < count && 2 <= within && within < 8 {
        return Some(at / 10);
    }
    None
}

fn look_up<L: Ledger>(rt: &impl Abort, alloc: Global, blank: Blank) -> Result<(), Fail>
    requires name { blank.name ≡ L.name }
    requires parts { blank.parts ≡ L.parts }
    requires some { 0 < blank.parts }
{
    let table = ranges(alloc, 100)?;
    let index = index(alloc, &table)?;
    let mut steps = Steps::<L>::new(blank);
    for at in 0..1010 {
        assert!(rt; innermost(&index, at, &mut steps) == expected(at, 100));
    }
    Ok(())
}

#[test]
fn a_hundred_ranges(rt: HostRuntime) -> Result<(), Fail> {
    look_up::<Brand>(&rt, rt.alloc(), Blank::new(1))
}
