//! The files that a text asks for.
ghost use Rattle.std.specs.Prelude.{◌≡◌, ◌<◌, length, slice_get, MatchOption, Some, None};
ghost use Rattle.syntax_trees.specs.PlainSyntax.{syntax};
ghost use Rattle.checked_texts.specs.Asked.{asks};

use crate::file_names::is_built_in;
use syntax_trees::Module;

/// How many interfaces the text asks for: one for each item of its DIRECTORY.
pub fn asked_count(tree: &Module) -> usize
    ensures { result ≡ length (asks (syntax tree.now)) }
{
    tree.directory.len()
}

/// The base of the file of that interface, as the FROM text has it; None for the built-in one, which is read from no file.
pub fn asked_file(tree: &Module, number: usize) -> Option<&[u8]>
    requires { number < length (asks (syntax tree.now)) }
    ensures { MatchOption result (slice_get (asks (syntax tree.now)) number ≡ Some None) (λ base. slice_get (asks (syntax tree.now)) number ≡ Some (Some base.now)) }
{
    let item = &tree.directory.as_slice()[number];
    if is_built_in(item) {
        None
    } else {
        Some(item.file.as_slice())
    }
}
