//! What stands around a block: an arena of scopes, each of which says how far before it the one around it stands.
ghost use Rattle.std.specs.Prelude.{◌≡◌, ◌-◌, ◌≤◌, length, IfOk, OnOk};
ghost use Rattle.code_rules.specs.Points.{is_among};
ghost use Rattle.code_blocks.specs.Writing.{Env, end_at, in_part, offset_of as offset_at};
ghost use Rattle.code_trees.specs.Plain.{mark_of, point_of};
ghost use Rattle.code_writer.specs.Scopes.{env_at, inside, Grows, or_offset, end_from};

use code_trees::{Mark, Point};
use mesa_base::OutOfMemory;

/// A part of the code with its mark, from one offset to another; or the arms of a phrase.
#[derive(Clone, Copy)]
pub enum Level<'a> {
    Part(&'a Mark, u32, u32),
    Arms,
}

/// A level, and how many scopes lie between it and the one around it. Scopes are numbered from 1; number 0 is the procedure.
#[derive(Clone, Copy)]
pub struct Scope<'a> {
    pub level: Level<'a>,
    pub back: usize,
}

/// Opens a level inside a scope, and gives the number of the new one.
#[tactic(auto, using(crate::proofs::Arena::entered, crate::proofs::Arena::grown))]
pub fn enter<'a>(
    scopes: &mut Vec<Scope<'a>>,
    level: Level<'a>,
    around: usize,
) -> Result<usize, OutOfMemory>
    requires { around ≤ length scopes.old.items }
    ensures inner { IfOk result (λ inner. env_at scopes.new.items inner ≡ inside level.entry (env_at scopes.old.items around)) }
    ensures there { IfOk result (λ inner. inner ≤ length scopes.new.items) }
    ensures grows { OnOk result (Grows scopes.old.items scopes.new.items) }
{
    let back = scopes.len() - around;
    scopes.push(Scope { level, back })?;
    Ok(scopes.len())
}

fn has_label(labels: &[u32], label: u32) -> bool
    ensures { result ≡ is_among label labels.now }
{
    for known in labels {
        if label == *known {
            return true;
        }
    }
    false
}

/// Where the point lies, if the part has it.
fn offset_in_part(mark: &Mark, start: u32, end: u32, point: Point) -> Option<u32>
    ensures { (E : Env) → offset_at ((in_part (mark_of mark.now) start end E).points (point_of point)) ≡ or_offset result (offset_at (E.points (point_of point))) }
{
    match (mark, point) {
        (Mark::Statement(number), Point::Start(statement)) => (*number == statement).then_some(
            start,
        ),
        (Mark::Statement(number), Point::After(statement)) => (*number == statement).then_some(end),
        (Mark::Labels(labels), Point::At(label)) => has_label(labels.as_slice(), label).then_some(
            end,
        ),
        _ => None,
    }
}

impl Scope<'_> {
    /// The number of the scope around this one, which has the number `below` + 1.
    fn outer(&self, below: usize) -> usize
        ensures { result ≡ below - self.now.back }
    {
        below.saturating_sub(self.back)
    }
}

fn offset_in(level: Level<'_>, point: Point) -> Option<u32>
    ensures { (E : Env) → offset_at ((inside level.entry E).points (point_of point)) ≡ or_offset result (offset_at (E.points (point_of point))) }
{
    match level {
        Level::Part(mark, start, end) => offset_in_part(mark, start, end, point),
        Level::Arms => None,
    }
}

/// The offset of a point, as it is seen from a scope. It asks each scope around once at most.
pub fn offset_of(scopes: &[Scope<'_>], number: usize, point: Point) -> u32
    ensures { result ≡ offset_at ((env_at scopes.now number).points (point_of point)) }
{
    let mut at = number;
    'outward: while at > 0 {
        let Some(scope) = scopes.get(at - 1) else {
            return 0;
        };
        if let Some(offset) = offset_in(scope.level, point) {
            return offset;
        }
        at = scope.outer(at - 1);
    }
    0
}

/// Where a part ends, or how many parts to whose end jumps go lie between it and the next scope outward.
enum Sought {
    Found(u32),
    Further(u32),
}

fn pass(level: Level<'_>, left: u32) -> Sought
    ensures { (E : Env) → end_at (inside level.entry E).ends left ≡ end_from result E }
{
    match level {
        Level::Arms => Sought::Found(0),
        Level::Part(Mark::Here(_), _, end) => {
            if left == 0 {
                Sought::Found(end)
            } else {
                Sought::Further(left - 1)
            }
        }
        Level::Part(_, _, _) => Sought::Further(left),
    }
}

/// The end of a part around, as it is seen from a scope. It asks each scope around once at most.
pub fn end_of(scopes: &[Scope<'_>], number: usize, part: u32) -> u32
    ensures { result ≡ end_at (env_at scopes.now number).ends part }
{
    let mut at = number;
    let mut left = part;
    'outward: while at > 0 {
        let Some(scope) = scopes.get(at - 1) else {
            return 0;
        };
        match pass(scope.level, left) {
            Sought::Found(end) => return end,
            Sought::Further(further) => {
                left = further;
                at = scope.outer(at - 1);
            }
        }
    }
    0
}
