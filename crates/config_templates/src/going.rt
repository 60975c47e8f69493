//! Going through a configuration.
ghost use Rattle.std.specs.Prelude.{◌≡◌, ◌≤◌, [], MatchResult};
ghost use Rattle.check_scopes.specs.Scopes.{outer};
ghost use Rattle.check_scopes.specs.Shows.{shows};
ghost use Rattle.cmesa_grammar.specs.Plain as plain;
ghost use Rattle.cmesa_grammar.specs.Syntax.{Statements};
ghost use Rattle.config_rules.specs.Through as spec;
ghost use Rattle.config_rules.specs.Tree.{modules_with};
ghost use Rattle.config_templates.specs.Answers.{IsAnswer, Stops};
ghost use Rattle.config_templates.specs.Found.{modules_of};
ghost use Rattle.config_templates.specs.Going.{declared, Goes, IsNamed, gone_on};
ghost use Rattle.config_templates.specs.Modules.{IsIndexed};

use crate::headings::headed;
use crate::instances::instance;
use crate::modules::Modules;
use crate::so_far::SoFar;
use crate::template::Template;
use check_scopes::{Names, Scopes};
use cmesa_grammar::{Config, ConfigStatement, Configuration};
use config_rules::{Component, TreeCause, TreeFault};
use mesa_base::Shared;
use mesa_base::limits::CONFIGURATION_DEPTH;
use mesa_types::Shape;
use std::alloc::Global;

type NestedScopes = Scopes<Shared<Template>>;

/// A configuration that is declared inside so many: it is gone through at its place, and its name is known behind it. TwiceNamed where one
/// of its name is declared in the same scope.
#[cycle(going)]
fn declare(
    inner: &Configuration,
    alloc: Global,
    modules: &Modules,
    depth: usize,
    nested: &mut NestedScopes,
) -> Result<(), TreeFault>
    requires indexed { IsIndexed modules.now }
    requires depth { depth ≤ CONFIGURATION_DEPTH }
    ensures { let exact = declared (modules_of modules.now) depth (shows nested.old) (plain.configuration inner.now) in MatchResult result (λ _. (exact ≡ Ok (shows nested.new)) × (outer (shows nested.new) ≡ outer (shows nested.old))) (λ fault. Stops exact fault) }
{
    let name = &inner.heading.name;
    if nested.is_declared(name.name.bytes()) {
        return Err(TreeFault::At(TreeCause::TwiceNamed, name.place));
    }
    let template = through(inner, alloc, modules, depth + 1, nested)?;
    nested.declare(alloc, name.name.bytes(), Shared::new(alloc, template)?)?;
    Ok(())
}

/// A statement of a configuration, before those that are left.
#[cycle(going)]
fn statement(
    statement: &ConfigStatement,
    alloc: Global,
    modules: &Modules,
    depth: usize,
    nested: &mut NestedScopes,
    so_far: &mut SoFar,
) -> Result<(), TreeFault>
    requires indexed { IsIndexed modules.now }
    requires depth { depth ≤ CONFIGURATION_DEPTH }
    requires named { IsNamed so_far.old }
    ensures { MatchResult result (λ _. (left : Statements) → Goes (modules_of modules.now) depth (shows nested.old) so_far.old (plain.statement statement.now left) (shows nested.new) so_far.new left) (λ fault. (left : Statements) → Stops (gone_on (modules_of modules.now) depth (shows nested.old) so_far.old.parts (plain.statement statement.now left)) fault) }
{
    match statement {
        ConfigStatement::Declare(inner) => declare(inner, alloc, modules, depth, nested)?,
        ConfigStatement::Instantiate(one) => {
            let part = instance(one, alloc, modules, nested, &so_far.names)?;
            so_far.add(alloc, part)?;
        }
    }
    Ok(())
}

/// A configuration, with so many around each other, it among them. TooNested where those are more than 32; else the first fault of its
/// statements, of its IMPORTS, of its EXPORTS, of its CONTROL.
#[cycle(going)]
fn through(
    configuration: &Configuration,
    alloc: Global,
    modules: &Modules,
    depth: usize,
    nested: &mut NestedScopes,
) -> Result<Template, TreeFault>
    requires { IsIndexed modules.now }
    ensures { let exact = spec.through (modules_of modules.now) depth (shows nested.old) (plain.configuration configuration.now) in MatchResult result (λ template. (exact ≡ Ok template) × (shows nested.new ≡ shows nested.old)) (λ fault. Stops exact fault) }
{
    if depth > CONFIGURATION_DEPTH {
        let place = configuration.heading.name.place;
        return Err(TreeFault::At(TreeCause::TooNested, place));
    }
    nested.enter(Names::new(alloc))?;
    let mut so_far = SoFar::new(alloc);
    for one in configuration.statements.as_slice() {
        statement(one, alloc, modules, depth, nested, &mut so_far)?;
    }
    nested.leave();
    headed(&configuration.heading, alloc, so_far)
}

/// Goes through a configuration whose components have these shapes: each statement looked up, or the first fault (in the order: more than
/// 32 configurations around each other; the statements in text order, a nested configuration as a whole at its place; the IMPORTS; the
/// EXPORTS; CONTROL). Besides that, only memory may be wanting. Names are looked up in indexes.
pub fn gone_through(
    alloc: Global,
    config: &Config,
    components: &[Component],
    shapes: &[Shape],
) -> Result<Template, TreeFault>
    ensures { IsAnswer (λ template. template) (spec.through (modules_with components.now shapes.now) 1 [] (plain.plain config.now).outermost) result }
{
    let modules = Modules::new(alloc, components, shapes)?;
    let mut nested = Scopes::new(alloc);
    through(&config.outermost, alloc, &modules, 1, &mut nested)
}
