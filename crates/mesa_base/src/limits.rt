//! The limits of the language, which are rules of this project. Definitions and code name them from here.

/// The most bytes of a text.
pub const TEXT_BYTES: usize = 1_048_576;

/// The most bytes of an identifier.
pub const IDENTIFIER_BYTES: usize = 255;

/// The most bytes of a string literal's value.
pub const STRING_BYTES: usize = 32_767;

/// The greatest number that a literal writes.
pub const GREATEST_NUMBER: u64 = 4_294_967_295;

/// The greatest code of a character.
pub const GREATEST_CHARACTER: u64 = 255;

/// Inside how many statements, expressions and type expressions, counted together, another may stand.
pub const NESTING: usize = 200;

/// The most words of a type.
pub const TYPE_WORDS: u32 = 16_384;

/// The most types that stand inside one another.
pub const TYPE_DEPTH: u32 = 64;

/// The most elements of an enumeration.
pub const ENUMERATION_ELEMENTS: u32 = 65_536;

/// The most words of a module's globals.
pub const GLOBAL_WORDS: u32 = 16_384;

/// The most string literals of a module, equal ones counted once.
pub const DISTINCT_STRINGS: usize = 65_535;

/// The most words of a procedure's locals.
pub const LOCAL_WORDS: u32 = 1_024;

/// The most words of a statement's operands.
pub const OPERAND_WORDS: u32 = 16_384;

/// The most words of the parameters and results of a signal or error of a PROGRAM, together.
pub const SIGNAL_WORDS: u32 = 2_048;

/// The most instances of modules and nested configurations, together.
pub const INSTANCES: usize = 1_024;

/// The most configurations that stand inside one another, and the most names of an instance's path.
pub const CONFIGURATION_DEPTH: usize = 32;

/// The most activations of procedures that stand at one time.
pub const ACTIVATIONS: usize = 8_192;

/// The most nodes of the tree of a module that is translated.
pub const TREE_NODES: usize = 4_194_304;

/// The most bytes of an interface, object or image file.
pub const FILE_BYTES: usize = 536_870_912;
