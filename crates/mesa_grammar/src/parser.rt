//! The reader of modules.
ghost use Rattle.std.specs.Prelude.{◌≡◌, ◌≢◌, if◌then◌else◌, IfErr, IfOk, MatchResult};
ghost use Rattle.mesa_lexer.specs.declared.fault.SyntaxFault.{SyntaxFault};
ghost use Rattle.syntax_trees.specs.declared.syntax.Module.{Module};
ghost use Rattle.grammar_rules.specs.Answer.{HasSyntaxFault, Parses, place_at};
ghost use Rattle.token_cursor.specs.Running.{Reads, fault_of};
ghost use Rattle.grammar_rules.specs.ReadStatements.{nested};
ghost use Rattle.grammar_rules.specs.ReadModules as texts;

use crate::nesting::Grammar;
use grammar_rules::Begun;
use grammar_statements::StatementParser;
use grammar_statements::grammar_expressions::{Level, ParserFunctions};
use grammar_statements::grammar_tokens::begins::{begins_expr, begins_stmt, begins_type};
use held_trees::LetGo;
use mesa_base::limits::NESTING;
use mesa_base::{Identifier, Place};
use mesa_lexer::{SyntaxFault, Tokens};
use std::alloc::Global;
use syntax_trees::Module;
use syntax_trees::syntax::{Expr, Statement, TypeExp};
use token_cursor::{Cursor, Stopped};

/// Why a parser stops at the level where nothing more may nest.
pub fn too_deep(begins: bool) -> Stopped
    ensures { result ≡ (if begins then Stopped.TooDeep else Stopped.Unexpected) }
{
    if begins {
        Stopped::TooDeep
    } else {
        Stopped::Unexpected
    }
}

#[cycle(nest)]
fn stmt(
    alloc: Global,
    tokens: &mut Cursor<'_>,
    depth: usize,
    begun: Option<Identifier>,
) -> Result<Statement, Stopped>
    ensures { Reads ((nested depth).stmt begun tokens.old.rest.now) result tokens.new.rest.now }
{
    if depth == 0 {
        begun.let_go();
        return Err(too_deep(begins_stmt(tokens)));
    }
    StatementParser {
        level: Level {
            alloc,
            depth: depth - 1,
            nested: ParserFunctions {
                stmt,
                expr,
                type_exp,
            },
        },
    }
    .statement(tokens, begun)
}

#[cycle(nest)]
fn expr(alloc: Global, tokens: &mut Cursor<'_>, depth: usize, begun: Begun) -> Result<Expr, Stopped>
    ensures { Reads ((nested depth).expr begun tokens.old.rest.now) result tokens.new.rest.now }
{
    if depth == 0 {
        return Err(too_deep(begins_expr(tokens)));
    }
    Level {
        alloc,
        depth: depth - 1,
        nested: ParserFunctions {
            stmt,
            expr,
            type_exp,
        },
    }
    .disj(tokens, begun)
}

#[cycle(nest)]
fn type_exp(
    alloc: Global,
    tokens: &mut Cursor<'_>,
    depth: usize,
    begun: Option<Identifier>,
) -> Result<TypeExp, Stopped>
    ensures { Reads ((nested depth).type begun tokens.old.rest.now) result tokens.new.rest.now }
{
    if depth == 0 {
        begun.let_go();
        return Err(too_deep(begins_type(tokens)));
    }
    Level {
        alloc,
        depth: depth - 1,
        nested: ParserFunctions {
            stmt,
            expr,
            type_exp,
        },
    }
    .any_type(tokens, begun)
}

#[tactic(auto, using(crate::proofs::Ending::ended_none, crate::proofs::Ending::ended_some), unfolding(grammar_rules::specs::ReadModules::text, grammar_rules::specs::ReadModules::limit))]
fn text(alloc: Global, tokens: &mut Cursor<'_>) -> Result<Module, Stopped>
    ensures { Reads (texts.text tokens.old.rest.now) result tokens.new.rest.now }
{
    let statements = StatementParser {
        level: Level {
            alloc,
            depth: NESTING,
            nested: ParserFunctions {
                stmt,
                expr,
                type_exp,
            },
        },
    };
    let module = Grammar { statements }.module_text(tokens)?;
    match tokens.peek() {
        None => Ok(module),
        Some(_) => {
            module.let_go();
            Err(Stopped::Unexpected)
        }
    }
}

/// The place of the next token, or of the text's end.
#[tactic(auto, using(crate::proofs::Ending::place_none, crate::proofs::Ending::place_some))]
fn place(tokens: &Cursor<'_>, end: Place) -> Place
    ensures { result ≡ place_at tokens.now.rest.now end }
{
    match tokens.peek() {
        Some(token) => token.place,
        None => end,
    }
}

fn fault(why: Stopped, place: Place) -> SyntaxFault
    ensures { result ≡ fault_of why place }
{
    match why {
        Stopped::Unexpected => SyntaxFault::Unexpected(place),
        Stopped::TooDeep => SyntaxFault::TooDeep(place),
        Stopped::Memory => SyntaxFault::Memory,
    }
}

/// The tree of a module's tokens (Language Manual, appendix on syntax; docs/LANGUAGE.md has each production), or the
/// first fault, whichever of the two comes at the earlier token. One token of lookahead decides.
///
/// Unexpected: the tokens before this place begin a text, and those through it begin none; at the text's end they are no
/// text. TooDeep: some text starts with the tokens through this place, and there the 201st statement, expression or type
/// begins that stand inside one another. Memory: it ran out.
pub fn module(alloc: Global, tokens: &Tokens) -> Result<Module, SyntaxFault>
    ensures ok { IfOk result (λ x. Parses tokens.now.items x) }
    ensures fault { IfErr result (λ fault. fault ≢ SyntaxFault.Memory → HasSyntaxFault tokens.now.items tokens.now.end fault) }
    // Where the tokens have a tree it is the answer, and where they have a fault that is, but for want of memory.
    ensures only_tree { (x : Module) → Parses tokens.now.items x
        → MatchResult result (λ found. found ≡ x) (λ fault. fault ≡ SyntaxFault.Memory) }
    ensures only_fault { (fault : SyntaxFault) → HasSyntaxFault tokens.now.items tokens.now.end fault
        → MatchResult result (λ x. ⊥) (λ found. found ≢ SyntaxFault.Memory → found ≡ fault) }
{
    let mut at = Cursor {
        rest: tokens.as_slice(),
    };
    match text(alloc, &mut at) {
        Ok(module) => Ok(module),
        Err(why) => Err(fault(why, place(&at, tokens.end()))),
    }
}
