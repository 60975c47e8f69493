//! The laws of trees of texts: how they are written, and what checking gives of them.
ghost use Rattle.written_trees.specs.Alone.{CheckedTextsStandAlone};
ghost use Rattle.written_trees.specs.Laws.{CheckedDefinitionsAreInOrder, CheckedTextsAreSound, CheckedTextsCanBeSpelled, CheckedTextsHaveNames, FaultsStandAtTokens, NamesOfTreesAreNames, PlacesAreOfTokens, TokensAreWithin, TreesAreWritten};

use typing_laws::laws::shapes_are_given;

/// The tokens of a text are within their limits: what is written as a name is one, and strings have at most their bytes.
#[tactic(auto, using(crate::proofs::Tokens::tokens_are_within))]
pub fn tokens_are_within()
    ensures { TokensAreWithin }
{}

/// Each tree of a text is written as the soundness of checking asks: lists that the grammar leaves no choice about have a part,
/// and string literals are within their limit.
pub fn trees_are_written()
    ensures { TreesAreWritten }
{}

/// Each identifier anywhere in a tree of a text is a name.
pub fn names_of_trees_are_names()
    ensures { NamesOfTreesAreNames }
{}

/// Each place in a tree of a text is that of a token of the text.
#[tactic(auto, using(crate::proofs::TokenPlaces::places_of_tokens))]
pub fn places_are_of_tokens()
    ensures { PlacesAreOfTokens }
{}

/// A fault that checking gives of a text is named at a token of the text, of a program and of definitions.
#[tactic(auto, using(crate::proofs::TokenPlaces::faults_at_tokens))]
pub fn faults_stand_at_tokens()
    ensures { FaultsStandAtTokens }
{}

/// A typed module that checking gives of a text is sound, where its interfaces are in order; the built-in one is.
#[tactic(auto, using(crate::proofs::LawProofs::checked_texts_are_sound))]
pub fn checked_texts_are_sound()
    ensures { CheckedTextsAreSound }
{}

/// An interface that checking gives of a text is in order, where those given to it are.
pub fn checked_definitions_are_in_order()
    ensures { CheckedDefinitionsAreInOrder }
{}

/// The signals and procedures of a module that checking gives of a text have names.
pub fn checked_texts_have_names()
    ensures { CheckedTextsHaveNames }
{}

/// Files can spell the shape of a module, and the interface under a stamp of six bytes, that checking gives of a text, where they can
/// spell the interfaces given to it, as they can the built-in one.
#[tactic(auto, using(crate::proofs::LawProofs::texts_can_be_spelled))]
pub fn checked_texts_can_be_spelled()
    ensures { CheckedTextsCanBeSpelled }
{}

/// What checking gives of a text, with the built-in interface for each item of its DIRECTORY, is a module that can be translated and run
/// by itself: it is sound, has at most 4,194,304 nodes, and imports nothing but that interface.
pub fn checked_texts_stand_alone()
    ensures { CheckedTextsStandAlone }
{
    shapes_are_given();
}
