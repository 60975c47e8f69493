//! The laws of the grammar: tokens have one answer, and a tree has at most two nodes for each of them.
ghost use Rattle.std.specs.Prelude.{◌*◌, ◌≤◌, length};
ghost use Rattle.grammar_rules.specs.Answer.{OneAnswer, Parses};
ghost use Rattle.syntax_trees.specs.SyntaxNodes.{nodes};
ghost use Rattle.syntax_trees.specs.declared.syntax.Module.{Module};

use mesa_lexer::Token;

/// A law: the tokens are a text with one tree, or they have one fault, at the least token at which no text of the grammar
/// goes on (or at the end), or at the least one at which the 201st nested statement, expression or type would begin in
/// some tree of some text that starts with the tokens up to it; never two of these.
pub fn exactly_one_answer(tokens: &[Token])
    ensures { OneAnswer tokens.now }
{}

/// A law: the tree of a text has at most two nodes for each token, by the count of docs/LANGUAGE.md.
pub fn two_nodes_a_token(tokens: &[Token])
    ensures { (x : Module) → Parses tokens.now x → nodes x ≤ 2 * length tokens.now }
{}
