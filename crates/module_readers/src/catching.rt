//! Labels, arms and catch phrases.
ghost use Rattle.std.specs.Prelude.{◌≡◌, slice_get};
ghost use Rattle.file_forms.specs.Forms.{number, ruled, list, several, at_least, between};
ghost use Rattle.file_forms.specs.Reads.{Reads};
ghost use Rattle.mesa_base.specs.declared.file_fault.Field.TheVariants.{Kind};
ghost use Rattle.object_rules.specs.CatchForms as form;

use code_forms::{Arm, Arms, CatchTable, CodeKind, CodeLink, CodeSignal, Label, Labels, Phrase};
use file_forms::{FileCursor, Stopped};
use mesa_base::{Field, List};
use std::alloc::Global;

// Number: the module has no such signal.
#[tactic(auto, unfolding(object_rules::specs::CatchForms::own_label))]
fn own_label(input: &mut FileCursor<'_>, signals: &[CodeSignal]) -> Result<Label, Stopped>
    ensures { Reads ((form.own_label signals.now).read input.old.rest.now) result input.new.rest.now }
{
    let left = input.rest.len();
    let signal = input.u32()?;
    if signal as usize >= signals.len() {
        return Err(Stopped::Bad(Field::Number, left));
    }
    Ok(Label::Own(signal))
}

fn is_signal_kind(kind: CodeKind) -> bool
    ensures { result ≡ form.is_signal_kind kind }
{
    match kind {
        CodeKind::Procedure => false,
        CodeKind::Signal | CodeKind::Error => true,
    }
}

fn is_signal_link(links: &[CodeLink], link: u32) -> bool
    ensures { result ≡ form.is_signal_link (slice_get links.now link) }
{
    match links.get(link as usize) {
        Some(link) => is_signal_kind(link.kind),
        None => false,
    }
}

// Number: the module has no such link, or the link is a procedure's.
#[tactic(auto, unfolding(object_rules::specs::CatchForms::link_label))]
fn link_label(input: &mut FileCursor<'_>, links: &[CodeLink]) -> Result<Label, Stopped>
    ensures { Reads ((form.link_label links.now).read input.old.rest.now) result input.new.rest.now }
{
    let left = input.rest.len();
    let link = input.u32()?;
    if !is_signal_link(links, link) {
        return Err(Stopped::Bad(Field::Number, left));
    }
    Ok(Label::Link(link))
}

// Kind: there is no such label.
fn label_tag(input: &mut FileCursor<'_>) -> Result<u8, Stopped>
    ensures { Reads ((ruled (number 1) (between 1 6) Kind).read input.old.rest.now) result input.new.rest.now }
{
    let left = input.rest.len();
    let tag = input.u8()?;
    if tag < 1 || tag > 6 {
        return Err(Stopped::Bad(Field::Kind, left));
    }
    Ok(tag)
}

#[tactic(auto, unfolding(object_rules::specs::CatchForms::label_at))]
fn label_at(
    input: &mut FileCursor<'_>,
    signals: &[CodeSignal],
    links: &[CodeLink],
    tag: u8,
) -> Result<Label, Stopped>
    ensures { Reads ((form.label_at signals.now links.now tag).read input.old.rest.now) result input.new.rest.now }
{
    match tag {
        1 => Ok(Label::Any),
        2 => Ok(Label::Unwind),
        3 => own_label(input, signals),
        4 => link_label(input, links),
        5 => Ok(Label::BoundsFault),
        _ => Ok(Label::ZeroDivisor),
    }
}

#[tactic(auto, unfolding(object_rules::specs::CatchForms::label))]
fn label(
    input: &mut FileCursor<'_>,
    signals: &[CodeSignal],
    links: &[CodeLink],
) -> Result<Label, Stopped>
    ensures { Reads ((form.label signals.now links.now).read input.old.rest.now) result input.new.rest.now }
{
    let tag = label_tag(input)?;
    label_at(input, signals, links, tag)
}

fn each_label(
    alloc: Global,
    input: &mut FileCursor<'_>,
    signals: &[CodeSignal],
    links: &[CodeLink],
    count: u32,
) -> Result<Labels, Stopped>
    ensures { Reads ((several count (λ _. form.label signals.now links.now)).read input.old.rest.now) result input.new.rest.now }
{
    let mut all = List::new(alloc);
    'labels: for _ in 0..count {
        let label = match label(input, signals, links) {
            Ok(label) => label,
            Err(why) => return Err(why),
        };
        all.push(label)?;
    }
    Ok(all)
}

// Length: there is no label.
fn labels(
    alloc: Global,
    input: &mut FileCursor<'_>,
    signals: &[CodeSignal],
    links: &[CodeLink],
) -> Result<Labels, Stopped>
    ensures { Reads ((list (at_least 1) (λ _. form.label signals.now links.now)).read input.old.rest.now) result input.new.rest.now }
{
    let count = input.count_from(1)?;
    each_label(alloc, input, signals, links, count)
}

#[tactic(auto, unfolding(object_rules::specs::CatchForms::arm))]
fn arm(
    alloc: Global,
    input: &mut FileCursor<'_>,
    signals: &[CodeSignal],
    links: &[CodeLink],
) -> Result<Arm, Stopped>
    ensures { Reads ((form.arm signals.now links.now).read input.old.rest.now) result input.new.rest.now }
{
    let labels = labels(alloc, input, signals, links)?;
    let slot = input.u16()?;
    let words = input.u16()?;
    let start = input.u32()?;
    let end = input.u32()?;
    Ok(Arm {
        labels,
        slot,
        words,
        start,
        end,
    })
}

fn each_arm(
    alloc: Global,
    input: &mut FileCursor<'_>,
    signals: &[CodeSignal],
    links: &[CodeLink],
    count: u32,
) -> Result<Arms, Stopped>
    ensures { Reads ((several count (λ _. form.arm signals.now links.now)).read input.old.rest.now) result input.new.rest.now }
{
    let mut all = List::new(alloc);
    'arms: for _ in 0..count {
        let arm = match arm(alloc, input, signals, links) {
            Ok(arm) => arm,
            Err(why) => return Err(why),
        };
        all.push(arm)?;
    }
    Ok(all)
}

// Length: there is no arm.
fn arms(
    alloc: Global,
    input: &mut FileCursor<'_>,
    signals: &[CodeSignal],
    links: &[CodeLink],
) -> Result<Arms, Stopped>
    ensures { Reads ((list (at_least 1) (λ _. form.arm signals.now links.now)).read input.old.rest.now) result input.new.rest.now }
{
    let count = input.count_from(1)?;
    each_arm(alloc, input, signals, links, count)
}

#[tactic(auto, unfolding(object_rules::specs::CatchForms::phrase))]
fn phrase(
    alloc: Global,
    input: &mut FileCursor<'_>,
    signals: &[CodeSignal],
    links: &[CodeLink],
) -> Result<Phrase, Stopped>
    ensures { Reads ((form.phrase signals.now links.now).read input.old.rest.now) result input.new.rest.now }
{
    let from = input.u32()?;
    let to = input.u32()?;
    let arms = arms(alloc, input, signals, links)?;
    Ok(Phrase { from, to, arms })
}

fn each_phrase(
    alloc: Global,
    input: &mut FileCursor<'_>,
    signals: &[CodeSignal],
    links: &[CodeLink],
    count: u32,
) -> Result<CatchTable, Stopped>
    ensures { Reads ((several count (λ _. form.phrase signals.now links.now)).read input.old.rest.now) result input.new.rest.now }
{
    let mut all = List::new(alloc);
    'phrases: for _ in 0..count {
        let phrase = match phrase(alloc, input, signals, links) {
            Ok(phrase) => phrase,
            Err(why) => return Err(why),
        };
        all.push(phrase)?;
    }
    Ok(all)
}

/// The catch phrases of a procedure.
pub fn phrases(
    alloc: Global,
    input: &mut FileCursor<'_>,
    signals: &[CodeSignal],
    links: &[CodeLink],
) -> Result<CatchTable, Stopped>
    ensures { Reads ((list (at_least 0) (λ _. form.phrase signals.now links.now)).read input.old.rest.now) result input.new.rest.now }
{
    let count = input.count_from(0)?;
    each_phrase(alloc, input, signals, links, count)
}
