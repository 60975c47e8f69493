//! Which arms fit a signal.

ghost use Rattle.std.specs.Prelude.{◌≡◌, Some, position, slice_get};
ghost use Rattle.std.specs.List.{list_any};
ghost use Rattle.machine_rules.specs.LookUps.{code_of, links_of, signal_bound, signals_bound};
ghost use Rattle.signaller.specs.Search.{fits_signal, is_meant, label_fits, linked, meant, same_signal};
ghost use Rattle.signal_survey.specs.Reading.{reads};

use crate::lookups::table_of;
use code_forms::{Arm, CodeKind, CodeLink, Label, ModuleCode};
use object_files::{Image, Link};
use signaller::SignalId;

fn same_signal(one: SignalId, other: SignalId) -> bool
    ensures { result ≡ same_signal one other }
{
    match one {
        SignalId::Own(instance, number) => match other {
            SignalId::Own(instance_2, number_2) => instance == instance_2 && number == number_2,
            _ => false,
        },
        SignalId::BoundsFault => matches!(other, SignalId::BoundsFault),
        SignalId::ZeroDivisor => matches!(other, SignalId::ZeroDivisor),
        SignalId::NoInput => matches!(other, SignalId::NoInput),
        SignalId::Unnamed => matches!(other, SignalId::Unnamed),
    }
}

// The signal for which a link of a kind stands.
#[tactic(auto, unfolding(machine_rules::specs::LookUps::signal_bound))]
fn signal_bound(kind: CodeKind, bound: Link) -> Option<SignalId>
    ensures { result ≡ signal_bound kind bound }
{
    let signal = match bound {
        Link::Wanted(_) => SignalId::NoInput,
        Link::To { instance, number } => SignalId::Own(instance, number),
    };
    match kind {
        CodeKind::Procedure => None,
        CodeKind::Signal | CodeKind::Error => Some(signal),
    }
}

// The signal to which a link is bound.
#[tactic(auto, using(crate::proofs::Reading::linked_there, crate::proofs::Reading::linked_short, crate::proofs::Reading::linked_past))]
fn linked(links: &[CodeLink], table: &[Link], number: u32) -> Option<SignalId>
    ensures { result ≡ linked (slice_get (signals_bound links.now table.now) number) }
{
    let number = number as usize;
    if number < links.len() && number < table.len() {
        signal_bound(links[number].kind, table[number])
    } else {
        None
    }
}

// The signal that a label means.
fn meant(instance: u32, links: &[CodeLink], table: &[Link], label: Label) -> Option<SignalId>
    ensures { result ≡ meant (reads instance links.now table.now) label }
{
    match label {
        Label::Any | Label::Unwind => None,
        Label::Own(number) => Some(SignalId::Own(instance, number)),
        Label::Link(number) => linked(links, table, number),
        Label::BoundsFault => Some(SignalId::BoundsFault),
        Label::ZeroDivisor => Some(SignalId::ZeroDivisor),
    }
}

fn is_meant(one: Option<SignalId>, signal: SignalId) -> bool
    ensures { result ≡ is_meant one signal }
{
    match one {
        Some(one) => same_signal(one, signal),
        None => false,
    }
}

fn label_fits(
    instance: u32,
    links: &[CodeLink],
    table: &[Link],
    signal: SignalId,
    label: Label,
) -> bool
    ensures { result ≡ label_fits (reads instance links.now table.now) signal label }
{
    matches!(label, Label::Any) || is_meant(meant(instance, links, table, label), signal)
}

fn fits(
    instance: u32,
    links: &[CodeLink],
    table: &[Link],
    signal: SignalId,
    labels: &[Label],
) -> bool
    ensures { result ≡ list_any (label_fits (reads instance links.now table.now) signal) labels.now }
{
    labels
        .iter()
        .any(|label| label_fits(instance, links, table, signal, *label))
}

fn first_fitting(
    instance: u32,
    links: &[CodeLink],
    table: &[Link],
    signal: SignalId,
    arms: &[Arm],
) -> Option<usize>
    ensures { result ≡ position (fits_signal (reads instance links.now table.now) signal) arms.now }
{
    arms.iter().position(|arm| fits(instance, links, table, signal, arm.labels.as_slice()))
}

/// The first arm that fits the signal, as an instance with this code reads its links.
pub fn first_arm(
    image: &Image,
    code: &ModuleCode,
    instance: u32,
    signal: SignalId,
    arms: &[Arm],
) -> Option<usize>
    requires { code_of image.now instance ≡ Some code.now }
    ensures { result ≡ position (fits_signal (links_of image.now instance) signal) arms.now }
{
    let table = table_of(image, instance as usize);
    first_fitting(instance, code.links.as_slice(), table, signal, arms)
}
