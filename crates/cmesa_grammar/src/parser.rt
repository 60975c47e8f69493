//! The reader of configurations.

ghost use Rattle.std.specs.Prelude.{◌≡◌, ◌≢◌, if◌then◌else◌, IfErr, IfOk, MatchResult};
ghost use Rattle.mesa_lexer.specs.declared.fault.SyntaxFault.{SyntaxFault};
ghost use Rattle.token_cursor.specs.Running.{Reads, fault_of};
ghost use Rattle.cmesa_grammar.specs.declared.syntax.Config.{Config};
ghost use Rattle.cmesa_grammar.specs.Answer.{HasSyntaxFault, ParsesConfiguration, place_at};
ghost use Rattle.cmesa_grammar.specs.ReadConfigs as spec;

use crate::begins::begins_configuration;
use crate::nesting::{Level, ParserFunction};
use crate::syntax::{Config, Configuration};
use crate::texts::component_files;
use held_trees::{LetGo, both};
use mesa_base::limits::NESTING;
use mesa_base::{Identifier, Place};
use mesa_lexer::{Mark, SyntaxFault, Tokens};
use std::alloc::Global;
use token_cursor::naming::named;
use token_cursor::{Cursor, Stopped};

/// Why a parser stops at the level where nothing more may nest.
pub fn too_deep(begins: bool) -> Stopped
    ensures { result ≡ (if begins then Stopped.TooDeep else Stopped.Unexpected) }
{
    if begins {
        Stopped::TooDeep
    } else {
        Stopped::Unexpected
    }
}

/// A configuration of this name, from its word on, in which so many may stand inside one another.
fn nested(
    alloc: Global,
    tokens: &mut Cursor<'_>,
    depth: usize,
    name: Identifier,
) -> Result<Configuration, Stopped>
    ensures { Reads (spec.nested depth name tokens.old.rest.now) result tokens.new.rest.now }
{
    if depth == 0 {
        name.let_go();
        return Err(too_deep(begins_configuration(tokens)));
    }
    Level {
        alloc,
        depth: depth - 1,
        nested: ParserFunction {
            configuration: nested,
        },
    }
    .configured(tokens, name)
}

#[tactic(auto, unfolding(crate::specs::ReadConfigs::config, crate::specs::ReadConfigs::limit))]
fn config(alloc: Global, tokens: &mut Cursor<'_>) -> Result<Config, Stopped>
    ensures { Reads (spec.config tokens.old.rest.now) result tokens.new.rest.now }
{
    let directory = component_files(alloc, tokens)?;
    let (directory, name) = both(directory, named(alloc, tokens))?;
    let (held, _) = both((directory, name), tokens.need_mark(Mark::Colon))?;
    let (directory, name) = held;
    let (directory, outermost) = both(directory, nested(alloc, tokens, NESTING, name))?;
    let (held, _) = both((directory, outermost), tokens.need_mark(Mark::Dot))?;
    let (directory, outermost) = held;
    Ok(Config {
        directory,
        outermost,
    })
}

#[tactic(auto, using(crate::proofs::Ending::ended_none, crate::proofs::Ending::ended_some), unfolding(crate::specs::ReadConfigs::text))]
fn text(alloc: Global, tokens: &mut Cursor<'_>) -> Result<Config, Stopped>
    ensures { Reads (spec.text tokens.old.rest.now) result tokens.new.rest.now }
{
    let config = config(alloc, tokens)?;
    match tokens.peek() {
        None => Ok(config),
        Some(_) => {
            config.let_go();
            Err(Stopped::Unexpected)
        }
    }
}

/// The place of the next token, or of the text's end.
#[tactic(auto, using(crate::proofs::Ending::place_none, crate::proofs::Ending::place_some))]
fn place(tokens: &Cursor<'_>, end: Place) -> Place
    ensures { result ≡ place_at tokens.now.rest.now end }
{
    match tokens.peek() {
        Some(token) => token.place,
        None => end,
    }
}

fn fault(why: Stopped, place: Place) -> SyntaxFault
    ensures { result ≡ fault_of why place }
{
    match why {
        Stopped::Unexpected => SyntaxFault::Unexpected(place),
        Stopped::TooDeep => SyntaxFault::TooDeep(place),
        Stopped::Memory => SyntaxFault::Memory,
    }
}

/// The tree of a configuration's tokens (Language Manual, chapter 7; `specs/Grammar.antt` has each production), or the
/// first fault, whichever of the two comes at the earlier token. One token of lookahead decides.
///
/// Unexpected: the tokens before this place begin a text, and those through it begin none; at the text's end they are no
/// text. TooDeep: the word CONFIGURATION of the first configuration that stands inside 200 others. Memory: it ran out.
pub fn configuration(alloc: Global, tokens: &Tokens) -> Result<Config, SyntaxFault>
    ensures ok { IfOk result (λ x. ParsesConfiguration tokens.now.items x) }
    ensures fault { IfErr result (λ fault. fault ≢ SyntaxFault.Memory → HasSyntaxFault tokens.now.items tokens.now.end fault) }
    // Where the tokens have a tree it is the answer, and where they have a fault that is, but for want of memory.
    ensures only_tree { (x : Config) → ParsesConfiguration tokens.now.items x
        → MatchResult result (λ found. found ≡ x) (λ fault. fault ≡ SyntaxFault.Memory) }
    ensures only_fault { (fault : SyntaxFault) → HasSyntaxFault tokens.now.items tokens.now.end fault
        → MatchResult result (λ x. ⊥) (λ found. found ≢ SyntaxFault.Memory → found ≡ fault) }
{
    let mut at = Cursor {
        rest: tokens.as_slice(),
    };
    match text(alloc, &mut at) {
        Ok(config) => Ok(config),
        Err(why) => Err(fault(why, place(&at, tokens.end()))),
    }
}
