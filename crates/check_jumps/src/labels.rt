//! The labels of a block or loop, and what stands around its statements.
ghost use Rattle.std.specs.Prelude.{◌≡◌, ◌+◌, Some, length, IfOk, OnOk};
ghost use Rattle.syntax_trees.specs.PlainSyntax as plain;
ghost use Rattle.check_rules.specs.Around as spec;
ghost use Rattle.check_rules.specs.Statements as rule;
ghost use Rattle.check_scopes.specs.Shows.{means};
ghost use Rattle.check_state.specs.Views as view;

use check_scopes::Names;
use check_state::{Around, Labels, Seen, next};
use mesa_base::{Identifier, OutOfMemory};
use std::alloc::Global;
use syntax_trees::syntax::{Exit, Repeat, RepeatLabels};

/// The labels that are visible in a block or loop, and how many labels stand around its statements.
#[derive(Drop)]
pub struct Labelled<'a> {
    pub labels: Labels<'a>,
    pub labelled: u32,
}

/// Each name is a label, the first with this number.
fn name_labels(
    names: &[Identifier],
    alloc: Global,
    scope: &mut Names<Seen>,
    first: u32,
    arms: u32,
) -> Result<u32, OutOfMemory>
    ensures number { IfOk result (λ number. number ≡ first + length names.now) }
    ensures scope { OnOk result (view.seen_as view.seen (means scope.new) ≡ spec.label_scope names.now first arms (view.seen_as view.seen (means scope.old))) }
{
    let mut number = first;
    for name in names {
        scope.declare(alloc, name.name.bytes(), Seen { number, arms })?;
        number = next(number)?;
    }
    Ok(number)
}

/// The labels of the EXITS of a block, and those around it.
pub fn labels_of_exits<'a>(
    exits: &[Exit],
    alloc: Global,
    around: &Around<'a>,
) -> Result<Labelled<'a>, OutOfMemory>
    ensures labels { IfOk result (λ made. view.labels_in made.labels ≡ (spec.with_labels (rule.labels_of_exits (plain.exits exits.now)) (view.around around.now)).labels) }
    ensures number { IfOk result (λ made. made.labelled ≡ (spec.with_labels (rule.labels_of_exits (plain.exits exits.now)) (view.around around.now)).labelled) }
{
    let mut names = Names::new(alloc);
    let mut labelled = around.labelled;
    for exit in exits {
        labelled = name_labels(
            exit.labels.as_slice(),
            alloc,
            &mut names,
            labelled,
            around.arms,
        )?;
    }
    Ok(Labelled {
        labels: Labels {
            names,
            around: around.labels,
        },
        labelled,
    })
}

/// The names of labels of a REPEAT; FINISHED has none.
pub fn names_of(labels: &RepeatLabels) -> &[Identifier]
    ensures { result.now ≡ rule.labels_of labels.now }
{
    match labels {
        RepeatLabels::Named(names) => names.as_slice(),
        RepeatLabels::Finished(_) => &[],
    }
}

/// The labels of the REPEAT of a loop, and those around it.
pub fn labels_of_repeats<'a>(
    repeats: &[Repeat],
    alloc: Global,
    around: &Around<'a>,
) -> Result<Labelled<'a>, OutOfMemory>
    ensures labels { IfOk result (λ made. view.labels_in made.labels ≡ (spec.with_labels (rule.labels_of_repeats (plain.repeats repeats.now)) (view.around around.now)).labels) }
    ensures number { IfOk result (λ made. made.labelled ≡ (spec.with_labels (rule.labels_of_repeats (plain.repeats repeats.now)) (view.around around.now)).labelled) }
{
    let mut names = Names::new(alloc);
    let mut labelled = around.labelled;
    for repeat in repeats {
        labelled = name_labels(
            names_of(&repeat.labels),
            alloc,
            &mut names,
            labelled,
            around.arms,
        )?;
    }
    Ok(Labelled {
        labels: Labels {
            names,
            around: around.labels,
        },
        labelled,
    })
}

/// Where these labels are visible.
#[tactic(auto, unfolding(check_state::specs::Views::around))]
pub fn with_labels<'a>(labelled: &'a Labelled<'a>, around: &Around<'a>) -> Around<'a>
    ensures { view.around result ≡ record (view.around around.now) { labels = view.labels_in labelled.now.labels; labelled = labelled.now.labelled } }
{
    Around {
        labels: Some(&labelled.labels),
        labelled: labelled.labelled,
        ..*around
    }
}

/// In the body of the loop that is the statement in hand, where these labels are visible.
#[tactic(auto, unfolding(check_state::specs::Views::around))]
pub fn in_round<'a>(
    labelled: &'a Labelled<'a>,
    around: &Around<'a>,
) -> Result<Around<'a>, OutOfMemory>
    ensures { IfOk result (λ inner. view.around inner ≡ spec.in_statement (record (view.around around.now) {
      labels = view.labels_in labelled.now.labels;
      labelled = labelled.now.labelled;
      loop = Some (record { number = around.now.statement; arms = around.now.arms });
    })) }
{
    let repeated = Some(Seen {
        number: around.statement,
        arms: around.arms,
    });
    Around {
        repeated,
        ..with_labels(labelled, around)
    }
    .in_statement()
}
