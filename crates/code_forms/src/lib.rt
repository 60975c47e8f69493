//! The instructions of the frame machine, the code of a module, and which code is valid.
#![tactic(auto)]

mod around;
mod bad_code;
mod building;
mod catching;
mod instruction;
mod judging;
mod jumps;
mod law;
pub mod limits;
mod lookups;
mod module_code;
mod operands;
mod procedures;
mod region;
mod settling;
mod stack;
mod valid_code;
mod validation;

pub use bad_code::{BadCode, CodeFault};
pub use instruction::Instruction;
pub use law::{no_fault_of_valid, one_depth, one_first_fault, runs_in_range};
pub use mesa_base;
pub use module_code::{
    Arm, Arms, CatchTable, CodeEntries, CodeEntry, CodeKind, CodeLink, CodeLinks, CodeProcedure,
    CodeSignal, CodeSignals, Label, Labels, ModuleCode, Phrase,
};
pub use procedures::CodeProcedures;
pub use region::Region;
pub use valid_code::ValidCode;
pub use validation::validate;
