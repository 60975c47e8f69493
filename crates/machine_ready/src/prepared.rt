//! All that a run needs beside its image: tables, globals, and memory for the activations.

ghost use Rattle.std.specs.Prelude.{◌≡◌, ◌+◌, ◌^◌, ◌<◌, length, All, IfOk};
ghost use Rattle.mesa_base.specs.declared.limits.TheConstants.{ACTIVATIONS};
ghost use Rattle.machine_ready.specs.Hosts.{IsHostItem};
ghost use Rattle.machine_ready.specs.Order.{ImageInOrder};
ghost use Rattle.machine_ready.specs.Ready.{IsReady};
ghost use Rattle.machine_ready.specs.Sizes.{largest};

use crate::globals::all_globals;
use crate::links::all_links;
use crate::plan::{Plans, all_plans};
use crate::sizes::{largest_depth, largest_frame};
use machine_activations::{Kind, Layout, Row, Stack};
use mesa_base::limits::ACTIVATIONS;
use mesa_base::{List, OutOfMemory};
use object_files::{Image, Object};
use signaller::Links;
use std::alloc::Global;

/// What a run looks up beside its image, and never changes.
#[derive(Drop)]
pub struct Tables {
    /// For each module the plans of its procedures.
    pub plans: List<Plans>,
    /// For each instance how it reads the links of labels.
    pub links: List<Links>,
}

/// All that a run needs beside its image.
#[derive(Drop)]
pub struct Prepared {
    pub tables: Tables,
    /// For each instance the words of its globals, and whether it was started.
    pub globals: Vec<Vec<u16>>,
    pub started: Vec<bool>,
    /// The activations that stand, with memory for as many as may.
    pub stack: Stack,
}

/// A part has the largest frame, and behind it room for the most operands.
fn layout_of(modules: &[Object]) -> Layout
    ensures frame { result.frame ≡ largest (λ p. p.frame) modules.now }
    ensures part { result.part ≡ result.frame + largest (λ p. p.depth) modules.now }
    ensures small { result.part < 2 ^ 33 }
{
    let frame = usize::from(largest_frame(modules));
    let part = frame + largest_depth(modules) as usize;
    Layout { part, frame }
}

/// A row for each activation that may stand.
fn all_rows(alloc: Global) -> Result<Vec<Row>, OutOfMemory>
    ensures { IfOk result (λ rows. length rows.items ≡ ACTIVATIONS) }
{
    let row = Row {
        instance: 0,
        procedure: 0,
        entry: 0,
        count: 0,
        kind: Kind::Frame,
    };
    Ok(vec![in alloc; row; ACTIVATIONS]?)
}

/// Makes all that a run of the image needs.
pub fn prepare(alloc: Global, image: &Image) -> Result<Prepared, OutOfMemory>
    requires order { ImageInOrder image.now }
    requires host { All IsHostItem image.now.wanted }
    ensures { IfOk result (IsReady image.now) }
{
    let modules = image.modules.as_slice();
    let layout = layout_of(modules);
    Ok(Prepared {
        tables: Tables {
            plans: all_plans(alloc, modules)?,
            links: all_links(alloc, image)?,
        },
        globals: all_globals(alloc, image)?,
        started: vec![in alloc; false; image.instances.len()]?,
        stack: Stack {
            layout,
            region: Vec::with_capacity(alloc, ACTIVATIONS * layout.part)?,
            rows: all_rows(alloc)?,
        },
    })
}
