//! The laws of what a text weighs: its tokens, its names and literals, and the nodes of its tree.
ghost use Rattle.text_weights.specs.Laws.{TokensAreInTheirText, TreesAreOfTheirTokens, TreesAreSizedByTheirText};

/// A law: a text has at most a token for each byte, its names and string literals take no more bytes than it has, and between two names stands a byte.
#[tactic(auto, using(crate::proofs::LawProofs::tokens_are_in_their_text))]
pub fn tokens_are_in_their_text()
    ensures { TokensAreInTheirText }
{}

/// A law: each name and each string literal of a tree stands among its tokens, whatever they weigh.
#[tactic(auto, using(crate::proofs::LawProofs::trees_are_of_their_tokens))]
pub fn trees_are_of_their_tokens()
    ensures { TreesAreOfTheirTokens }
{}

/// A law: the tree of a text has at most two nodes for each byte, at most half as many names as bytes, and no more bytes of names and literals.
#[tactic(auto, using(crate::proofs::LawProofs::trees_are_sized_by_their_text))]
pub fn trees_are_sized_by_their_text()
    ensures { TreesAreSizedByTheirText }
{}
