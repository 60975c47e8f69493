//! The tree of blocks of a typed body, of which code is written.
#![tactic(auto)]

pub mod arranging;
mod block;
pub mod calls;
pub mod case_forms;
pub mod check_code;
pub mod conditions;
pub mod counter;
pub mod exit_forms;
pub mod forms;
mod held_blocks;
pub mod held_parts;
mod laying;
mod layout;
pub mod link_code;
mod link_table;
pub mod linking;
mod links;
pub mod long_code;
pub mod loop_code;
pub mod loop_forms;
pub mod making;
pub mod operator_code;
pub mod own_code;
mod part;
mod routine;
pub mod slot_code;
pub mod stack_code;
pub mod statement_forms;
pub mod suffix_forms;
pub mod sums;
pub mod target_forms;

pub use block::{ArmBlock, ArmBlocks, Block, Blocks, Code, Leap, Mark, Point};
pub use layout::Layout;
pub use link_table::LinkTable;
pub use links::Links;
pub use part::{Part, Row, Values};
pub use routine::Routine;
