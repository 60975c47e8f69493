//! Objects: modules that are compiled.
use code_forms::ValidCode;
use code_forms::mesa_base::List;
use interface_records::mesa_types::Shape;

/// Modules, by number.
pub type Objects = List<Object>;

/// A compiled module: what a configuration needs to know of it, and its code. The code's links are the used items of
/// the imports, in order (rule of this project).
#[derive(Drop)]
pub struct Object {
    pub shape: Shape,
    pub code: ValidCode,
}
