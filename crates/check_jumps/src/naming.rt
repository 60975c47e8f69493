//! What the labels of an arm name.
ghost use Rattle.std.specs.Prelude.{◌≡◌, map, IfOk};
ghost use Rattle.check_rules.specs.Around as around_rule;
ghost use Rattle.check_rules.specs.Names as spec;
ghost use Rattle.check_state.specs.Gives.{Gives, GivesOnly};
ghost use Rattle.check_state.specs.Views as view;
ghost use Rattle.check_jumps.specs.Arms as label;

use check_rules::{Cause, CheckFault};
use check_state::{ArmLabel, Around, Meaning, State, last_place, qualified};
use mesa_base::{List, OutOfMemory, Place};
use mesa_types::{Label, Labels, Raised};
use std::alloc::Global;
use std::mem::drop;
use syntax_trees::syntax::{self, QualifiedName};

fn signal_in(place: Place, meaning: &Meaning) -> Result<ArmLabel, CheckFault>
    ensures { GivesOnly view.arm_label (spec.signal_by place (view.meaning meaning.now)) result }
{
    match meaning {
        Meaning::Signal(raised, head) => Ok(ArmLabel::ForSignal(*raised, head.share()?)),
        _ => Err(CheckFault::At(Cause::TypeMismatch, place)),
    }
}

fn signal_by(place: Place, meaning: Meaning) -> Result<ArmLabel, CheckFault>
    ensures { GivesOnly view.arm_label (spec.signal_by place (view.meaning meaning)) result }
{
    let label = signal_in(place, &meaning);
    drop(meaning);
    label
}

fn signal(
    name: &QualifiedName,
    alloc: Global,
    around: &Around<'_>,
    state: &mut State,
) -> Result<ArmLabel, CheckFault>
    ensures { Gives view.arm_label (label.signal (view.around around.now) name.now (view.state state.old)) result (view.state state.new) }
{
    let meaning = qualified(alloc, around, state, name)?;
    signal_by(last_place(name), meaning)
}

fn signals(
    names: &[QualifiedName],
    alloc: Global,
    around: &Around<'_>,
    state: &mut State,
) -> Result<List<ArmLabel>, CheckFault>
    ensures { Gives (map view.arm_label) (spec.signals (view.around around.now) names.now (view.state state.old)) result (view.state state.new) }
{
    let mut labels = List::new(alloc);
    for name in names {
        labels.push(signal(name, alloc, around, state)?)?;
    }
    Ok(labels)
}

/// What an arm is for.
#[tactic(auto, unfolding(check_rules::specs::Names::arm_labels))]
pub fn arm_labels(
    labels: &syntax::Labels,
    alloc: Global,
    around: &Around<'_>,
    state: &mut State,
) -> Result<List<ArmLabel>, CheckFault>
    ensures { Gives (map view.arm_label) (spec.arm_labels (view.around around.now) labels.now (view.state state.old)) result (view.state state.new) }
{
    match labels {
        syntax::Labels::Any(_) => Ok(List::of(alloc, ArmLabel::ForAny)?),
        syntax::Labels::Unwind(_) => Ok(List::of(alloc, ArmLabel::ForUnwind)?),
        syntax::Labels::Signals(names) => signals(names.as_slice(), alloc, around, state),
    }
}

fn label_for(raised: Raised) -> Label
    ensures { result ≡ around_rule.label_for raised }
{
    match raised {
        Raised::OwnSignal(number) => Label::OnOwn(number),
        Raised::LinkedSignal(import, item) => Label::OnLinked(import, item),
        Raised::TheBoundsFault => Label::OnBounds,
        Raised::TheZeroDivisor => Label::OnZero,
        Raised::TheUnnamed => Label::OnAny,
    }
}

/// The label in the typed tree.
pub fn label_of(one: &ArmLabel) -> Label
    ensures { result ≡ around_rule.label_of (view.arm_label one.now) }
{
    match one {
        ArmLabel::ForAny => Label::OnAny,
        ArmLabel::ForUnwind => Label::OnUnwind,
        ArmLabel::ForSignal(raised, _) => label_for(*raised),
    }
}

/// The labels in the typed tree.
pub fn labels_of(labels: &[ArmLabel], alloc: Global) -> Result<Labels, OutOfMemory>
    ensures { IfOk result (λ made. made ≡ map around_rule.label_of (map view.arm_label labels.now)) }
{
    let mut made = List::new(alloc);
    for one in labels {
        made.push(label_of(one))?;
    }
    Ok(made)
}
