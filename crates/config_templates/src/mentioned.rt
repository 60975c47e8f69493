//! Which modules a configuration mentions, each where it is mentioned first.
ghost use Rattle.std.specs.Prelude.{◌≡◌, [], ◌∷◌, ◌++◌, List, OnOk, IfOk};
ghost use Rattle.check_scopes.specs.Shows.{shows};
ghost use Rattle.cmesa_grammar.specs.Plain as plain;
ghost use Rattle.cmesa_grammar.specs.Syntax.{Statements, Identifier as Mention};
ghost use Rattle.config_rules.specs.Components.{mentions, first_mentions};
ghost use Rattle.config_templates.specs.Known.{Knows};
ghost use Rattle.config_templates.specs.Mentioned as spec;

use crate::known::{is_known, note};
use check_scopes::{Index, Names, Scopes};
use cmesa_grammar::{ConfigStatement, Configuration};
use mesa_base::{Identifier, OutOfMemory};
use std::alloc::Global;

/// The first mention of each module so far, with an index of their names.
#[derive(Drop)]
pub struct Mentioned<'a> {
    pub known: Index<()>,
    pub first: Vec<&'a Identifier>,
}

impl<'a> Mentioned<'a> {
    /// None. It takes no memory.
    fn new(alloc: Global) -> Mentioned<'a>
        ensures known { Knows result.known [] }
        ensures none { spec.so_far result ≡ [] }
    {
        Mentioned {
            known: Index::new(alloc),
            first: Vec::new(alloc),
        }
    }

    /// One mention more.
    fn mention(&mut self, alloc: Global, name: &'a Identifier) -> Result<(), OutOfMemory>
        requires { Knows self.old.known (spec.names_before (spec.so_far self.old)) }
        ensures { OnOk result (spec.Went self.old self.new (name.now ∷ [])) }
    {
        if is_known(&self.known, &name.name) {
            return Ok(());
        }
        note(alloc, &mut self.known, &name.name)?;
        self.first.push(name)?;
        Ok(())
    }
}

/// A statement, before those that are left.
#[cycle(mentions)]
fn statement<'a>(
    statement: &'a ConfigStatement,
    alloc: Global,
    nested: &mut Scopes<()>,
    mentioned: &mut Mentioned<'a>,
) -> Result<(), OutOfMemory>
    requires { Knows mentioned.old.known (spec.names_before (spec.so_far mentioned.old)) }
    ensures { OnOk result ((left : Statements) → spec.Passed (shows nested.old) (plain.statement statement.now left) mentioned.old (shows nested.new) left mentioned.new) }
{
    match statement {
        ConfigStatement::Declare(inner) => {
            within(inner, alloc, nested, mentioned)?;
            nested.declare(alloc, inner.heading.name.name.bytes(), ())?;
        }
        ConfigStatement::Instantiate(instance) => {
            if nested.find(instance.component.name.bytes()).is_none() {
                mentioned.mention(alloc, &instance.component)?;
            }
        }
    }
    Ok(())
}

/// A whole configuration inside these scopes.
#[cycle(mentions)]
fn within<'a>(
    configuration: &'a Configuration,
    alloc: Global,
    nested: &mut Scopes<()>,
    mentioned: &mut Mentioned<'a>,
) -> Result<(), OutOfMemory>
    requires { Knows mentioned.old.known (spec.names_before (spec.so_far mentioned.old)) }
    ensures went { OnOk result (spec.Went mentioned.old mentioned.new (spec.mentions_by (spec.in_scopes (shows nested.old)) (plain.configuration configuration.now))) }
    ensures scopes { OnOk result (shows nested.new ≡ shows nested.old) }
{
    nested.enter(Names::new(alloc))?;
    for one in configuration.statements.as_slice() {
        statement(one, alloc, nested, mentioned)?;
    }
    nested.leave();
    Ok(())
}

/// The first mention of each module, in text order.
pub fn first_mentions<'a>(
    alloc: Global,
    outermost: &'a Configuration,
) -> Result<Vec<&'a Identifier>, OutOfMemory>
    ensures { IfOk result (λ all. spec.now all.items ≡ first_mentions [] (mentions [] (plain.configuration outermost.now))) }
{
    let mut mentioned = Mentioned::new(alloc);
    within(outermost, alloc, &mut Scopes::new(alloc), &mut mentioned)?;
    let Mentioned { known: _, first } = mentioned;
    Ok(first)
}
