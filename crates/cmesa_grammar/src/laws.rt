//! The laws of the grammar: tokens have one answer, and a tree has at most one node for each of them.

ghost use Rattle.std.specs.Prelude.{◌≤◌, length};
ghost use Rattle.cmesa_grammar.specs.Answer.{OneAnswer, ParsesConfiguration};
ghost use Rattle.cmesa_grammar.specs.Nodes.{nodes};
ghost use Rattle.cmesa_grammar.specs.declared.syntax.Config.{Config};

use mesa_lexer::Token;

/// A law: the tokens are a text with one tree, or they have one fault, at the least token at which no text of the grammar
/// goes on (or at the end), or at the word CONFIGURATION of the first configuration that stands inside 200 others in some
/// tree of some text that starts with the tokens up to it; never two of these.
pub fn exactly_one_answer(tokens: &[Token])
    ensures { OneAnswer tokens.now }
{}

/// A law: the tree of a text has at most one node for each token.
pub fn one_node_a_token(tokens: &[Token])
    ensures { (x : Config) → ParsesConfiguration tokens.now x → nodes x ≤ length tokens.now }
{}
