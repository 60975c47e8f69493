//! The state in which the checking of a module begins: its names are not declared yet, and around them stand those of the DIRECTORY,
//! of the opened interfaces, and the predeclared ones.
ghost use Rattle.std.specs.Prelude.{◌≡◌, [], map, IfOk};
ghost use Rattle.check_state.specs.Views as words;
ghost use Rattle.interface_records.specs.PlainTypes.{plain_interface};
ghost use Rattle.syntax_trees.specs.PlainSyntax as plain;
ghost use Rattle.module_checker.specs.Starting as step;

use check_known::check_directory::{directory_scope, opened, predeclared, those_of};
use check_programs::check_faces::{ahead, ahead_in_interface, unused};
use check_programs::check_heads::Starts;
use check_scopes::{Marks, Names, Scopes};
use check_state::{Frame, Meaning, State};
use interface_records::Interface;
use mesa_base::{Identifier, Identifiers, OutOfMemory, Stamp};
use std::alloc::Global;
use syntax_trees::Module;
use syntax_trees::syntax::{Defined, Inner, Labeled};

/// The scopes around the names of a module.
#[tactic(auto, unfolding(check_state::specs::Views::scopes, check_state::specs::Views::names))]
fn scopes_around(
    module: &Module,
    alloc: Global,
    imports: &[Identifier],
    opens: &[Identifier],
    interfaces: &[Interface],
) -> Result<Scopes<Meaning>, OutOfMemory>
    ensures { IfOk result (λ made. words.scopes made ≡ step.around_names (plain.syntax module.now) (map plain_interface interfaces.now) imports.now opens.now) }
{
    let items = module.directory.as_slice();
    let mut scopes = Scopes::new(alloc);
    scopes.enter(predeclared(alloc)?)?;
    scopes.enter(opened(opens, alloc, imports, items, interfaces)?)?;
    scopes.enter(directory_scope(items, alloc)?)?;
    Ok(scopes)
}

/// The state before the first declaration, where this is what the module's own names mean before they are declared.
#[tactic(auto, unfolding(check_state::specs::Views::state, check_state::specs::Views::scopes, check_state::specs::Views::names))]
fn state_before(
    around: Scopes<Meaning>,
    alloc: Global,
    ahead: Names<Meaning>,
    used: Marks,
) -> Result<State, OutOfMemory>
    ensures { IfOk result (λ made. words.state made ≡ step.before (words.scopes around) (words.names ahead) used) }
{
    let mut scopes = around;
    scopes.enter(ahead)?;
    scopes.enter(Names::new(alloc))?;
    Ok(State {
        scopes,
        coming: Names::new(alloc),
        used,
        globals: Frame::new(alloc),
        variables: Frame::new(alloc),
        hidden: 0,
        operands: 0,
    })
}

/// What stands around a program.
#[derive(Clone, Copy)]
pub struct ProgramStart<'a> {
    pub alloc: Global,
    pub module: &'a Module,
    pub interfaces: &'a [Interface],
    pub imports: &'a [Identifier],
    pub opens: &'a [Identifier],
    pub inner: &'a Inner,
}

impl<'a> Starts for ProgramStart<'a> {
    ghost begins = { λ x. step.of_program (plain.syntax x.module.now) (map plain_interface x.interfaces.now) x.imports.now x.opens.now (plain.inner x.inner.now) };

    fn start(&self) -> Result<State, OutOfMemory> {
        let items = self.module.directory.as_slice();
        let around = scopes_around(
            self.module,
            self.alloc,
            self.imports,
            self.opens,
            self.interfaces,
        )?;
        let ahead = ahead(self.inner.declarations.as_slice(), self.alloc)?;
        let those = those_of(self.imports, self.alloc, items, self.interfaces)?;
        let used = unused(those.as_slice(), self.alloc)?;
        state_before(around, self.alloc, ahead, used)
    }
}

/// What stands around an interface.
#[derive(Clone, Copy)]
pub struct InterfaceStart<'a> {
    pub alloc: Global,
    pub module: &'a Module,
    pub stamp: Stamp,
    pub interfaces: &'a [Interface],
    pub opens: &'a [Identifier],
    pub definitions: &'a [Labeled<Identifiers, Defined>],
}

impl<'a> Starts for InterfaceStart<'a> {
    ghost begins = { λ x. step.of_interface (plain.syntax x.module.now) x.stamp (map plain_interface x.interfaces.now) x.opens.now (map plain.definition x.definitions.now) };

    fn start(&self) -> Result<State, OutOfMemory> {
        let around = scopes_around(self.module, self.alloc, &[], self.opens, self.interfaces)?;
        let ahead = ahead_in_interface(self.definitions, self.alloc)?;
        state_before(around, self.alloc, ahead, Marks::new(self.alloc))
    }
}
