//! Catch phrases and their arms, with the jumps that stand in each arm.
use mesa_base::List;
use mesa_types::Labels;

/// The catch phrases of a body in the order of the text, one before those in its arms and before those in what it holds.
pub type Scopes = List<PhraseScope>;

pub type ArmScopes = List<ArmScope>;

pub type JumpScopes = List<JumpScope>;

/// A place of a body to which a jump goes: the start of a numbered statement or the place after it, the statements of a
/// numbered label, or the return.
#[derive(Clone, Copy)]
pub enum Point {
    Start(u32),
    After(u32),
    At(u32),
    Leave,
}

/// A jump: where it goes, and how many arms it leaves on its way.
#[derive(Clone, Copy)]
pub struct JumpScope {
    pub point: Point,
    pub arms: u32,
}

/// An arm: its labels, and the jumps that stand in it and in no arm within it.
#[derive(Drop)]
pub struct ArmScope {
    pub labels: Labels,
    pub jumps: JumpScopes,
}

/// A catch phrase: the number of the statement to which it belongs, and its arms in the order of the text.
#[derive(Drop)]
pub struct PhraseScope {
    pub statement: u32,
    pub arms: ArmScopes,
}
