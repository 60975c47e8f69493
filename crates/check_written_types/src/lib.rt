//! Types as they are written: the recursion over type expressions and the fields of records.
#![tactic(auto)]

mod fields;
mod intervals;
mod made_types;
mod written_types;

pub use check_declared;
pub use check_expressions;
pub use check_expressions::check_operands;
pub use fields::and_fields;
pub use intervals::{first_of_type, of_interval};
pub use made_types::origin;
pub use written_types::{fields_of, type_exp, unnamed_fields};
