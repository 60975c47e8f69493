//! What a survey takes of one procedure.

use crate::event::Event;
use mesa_base::List;

pub type Sites = List<Site>;

pub type Endings = List<Ending>;

pub type Passings = List<Passing>;

/// Where signals may come: a reached instruction's event, and the number of the innermost phrase around it, past the regions of arms too.
#[derive(Clone, Copy)]
pub struct Site {
    pub position: Option<u32>,
    pub event: Event,
}

/// How an arm may end, by those of its instructions that are reached.
#[derive(Clone, Copy)]
pub enum Ending {
    /// It neither rejects nor resumes.
    Stops,
    /// It does not reject, and resumes with so many words alone.
    Resumes(u16),
    /// It may reject, or resume with different numbers of words.
    Passes,
}

/// What a phrase lets past: the next phrase outward of it, past the regions of arms too, and how each of its arms may end.
#[derive(Drop)]
pub struct Passing {
    pub beyond: Option<u32>,
    pub endings: Endings,
}

/// What a survey takes of a procedure: where signals may come, and what each of its phrases lets past.
#[derive(Drop)]
pub struct Surveyed {
    pub sites: Sites,
    pub passings: Passings,
}
