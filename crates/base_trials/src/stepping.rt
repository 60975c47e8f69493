//! Steps, counted by a caller that has no ledger of its own.
ghost use Rattle.std.specs.Prelude.{◌≡◌, ◌+◌, ◌<◌};

use mesa_base::Steps;
use std::marker::Brand;
use std::sync::ledger::{Blank, Ledger};

fn spend<L: Ledger>(turns: u8, steps: &mut Steps<L>) -> u8
    ensures { steps.new ≡ steps.old + 1 }
{
    steps.tick();
    turns / 2
}

// The call that makes the steps is generic over the ledger, and is called with `Brand`.
fn counted<L: Ledger>(blank: Blank, turns: u8) -> u8
    requires name { blank.name ≡ L.name }
    requires parts { blank.parts ≡ L.parts }
    requires some { 0 < blank.parts }
{
    let mut steps = Steps::<L>::new(blank);
    spend(turns, &mut steps)
}

#[test]
fn a_caller_with_no_ledger_makes_the_steps(rt: HostRuntime) {
    assert!(rt; counted::<Brand>(Blank::new(1), 9) == 4);
}
