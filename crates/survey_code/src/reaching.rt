//! Which nodes of a graph are reached from its first one.

ghost use Rattle.std.specs.Prelude.{◌<◌, length, IfOk, OnOk};
ghost use Rattle.survey_code.specs.Graphs.{IsGraph, IsMarked, AreReached};
ghost use Rattle.survey_code.specs.Marking.{Grows, Marks, Reaches, RowIsMarked};

use mesa_base::{List, OutOfMemory};
use std::alloc::Global;

/// For each node those to which it leads.
pub type Graph = List<List<usize>>;

// Marks a node, and puts it to those that are marked; once.
fn mark(marks: &mut Vec<bool>, queue: &mut Vec<usize>, node: usize) -> Result<(), OutOfMemory>
    requires { node < length marks.old.items }
    ensures { OnOk result (Marks marks.old.items queue.old.items node marks.new.items queue.new.items) }
{
    if marks[node] {
        return Ok(());
    }
    marks[node] = true;
    queue.push(node)?;
    Ok(())
}

// Marks those to which a node leads.
fn mark_each(
    graph: &Graph,
    marks: &mut Vec<bool>,
    queue: &mut Vec<usize>,
    node: usize,
) -> Result<(), OutOfMemory>
    requires graph { IsGraph graph.now }
    requires reaches { Reaches graph.now marks.old.items queue.old.items }
    requires marked { IsMarked marks.old.items node }
    ensures reaches { OnOk result (Reaches graph.now marks.new.items queue.new.items) }
    ensures more { OnOk result (Grows marks.old.items queue.old.items marks.new.items queue.new.items) }
    ensures row { OnOk result (RowIsMarked graph.now marks.new.items node) }
{
    let Some(row) = graph.get(node) else {
        return Ok(());
    };
    for next in row.as_slice() {
        mark(marks, queue, *next)?;
    }
    Ok(())
}

/// Which nodes are reached from the first one.
pub fn reach(alloc: Global, graph: &Graph) -> Result<Vec<bool>, OutOfMemory>
    requires { IsGraph graph.now }
    ensures { IfOk result (λ marks. AreReached graph.now marks.items) }
{
    let mut marks = vec![in alloc; false; graph.len()]?;
    let mut queue = Vec::new(alloc);
    mark(&mut marks, &mut queue, 0)?;
    let mut done = 0;
    'working: while done < queue.len() {
        let node = queue[done];
        mark_each(graph, &mut marks, &mut queue, node)?;
        done += 1;
    }
    Ok(marks)
}
