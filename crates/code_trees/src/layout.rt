//! Variables that lie one behind the other, and where each begins.
ghost use Rattle.std.specs.Prelude.{◌≡◌, ◌+◌, ◌≤◌, [], ◌∷◌, ◌++◌};
ghost use Rattle.mesa_types.specs.Plain.{kinds_of};
ghost use Rattle.mesa_types.specs.Shapes.{join, words_in_all};
ghost use Rattle.code_trees.specs.Starts.{ends_from};

use mesa_base::Numbers;
use mesa_types::FieldType;

/// Variables that lie one behind the other, with the words before each, and of all.
#[derive(Drop)]
pub struct Layout<'a> {
    pub first: &'a [FieldType],
    pub second: &'a [FieldType],
    pub third: &'a [FieldType],
    pub starts: Numbers,
    pub words: u32,
    pub ghost starts_are: { starts ≡ 0 ∷ ends_from 0 (join (kinds_of first.now) (join (kinds_of second.now) (kinds_of third.now))) },
    pub ghost words_are: { words ≡ words_in_all (join (kinds_of first.now) (join (kinds_of second.now) (kinds_of third.now))) },
    pub ghost small: { words ≤ 65535 },
}
