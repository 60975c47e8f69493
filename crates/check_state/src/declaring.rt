//! What is declared: a name must be new in its scope, and is visible when its declaration is read whole.
ghost use Rattle.std.specs.Prelude.{◌≡◌, map, OnOk};
ghost use Rattle.check_rules.specs.Names as spec;
ghost use Rattle.check_state.specs.Declaring as step;
ghost use Rattle.check_state.specs.Gives.{Gives};
ghost use Rattle.check_state.specs.Views as view;

use crate::meaning::Meaning;
use crate::state::State;
use check_rules::{Cause, CheckFault};
use interface_records::check_scopes::Names;
use mesa_types::mesa_base::{Identifier, OutOfMemory};
use std::alloc::Global;
use std::mem::replace;

impl State {
    /// Whether the name is declared in the innermost scope, or comes to be.
    #[tactic(auto, using(crate::proofs::ScopeLaws::innermost_as, crate::proofs::ScopeLaws::is_some_map), unfolding(crate::specs::Views::state, crate::specs::Views::scopes, crate::specs::Views::names))]
    pub fn is_declared(&self, name: &Identifier) -> bool
        ensures { result ≡ spec.is_declared name.now.name (view.state self.now) }
    {
        self.coming.has(name.name.bytes()) || self.scopes.is_declared(name.name.bytes())
    }

    /// The declaration in hand gives the name this meaning.
    #[tactic(auto, using(crate::proofs::ScopeLaws::with_name_as), unfolding(crate::specs::Views::state, crate::specs::Views::names))]
    pub fn comes(
        &mut self,
        alloc: Global,
        name: &Identifier,
        meaning: Meaning,
    ) -> Result<(), OutOfMemory>
        ensures { OnOk result (view.state self.new ≡ spec.coming name.now.name (view.meaning meaning) (view.state self.old)) }
    {
        self.coming.declare(alloc, name.name.bytes(), meaning)
    }

    /// The name has this meaning in the innermost scope from here on.
    #[tactic(auto, using(crate::proofs::ScopeLaws::with_name_as, crate::proofs::ScopeLaws::innermost_as, crate::proofs::ScopeLaws::outer_as), unfolding(crate::specs::Views::state, crate::specs::Views::scopes))]
    pub fn means_at_once(
        &mut self,
        alloc: Global,
        name: &Identifier,
        meaning: Meaning,
    ) -> Result<(), OutOfMemory>
        ensures { OnOk result (view.state self.new ≡ spec.at_once name.now.name (view.meaning meaning) (view.state self.old)) }
    {
        self.scopes.declare(alloc, name.name.bytes(), meaning)
    }

    /// What the declaration in hand declares is visible from here on.
    #[tactic(auto, using(crate::proofs::ScopeLaws::over_as, crate::proofs::ScopeLaws::innermost_as, crate::proofs::ScopeLaws::outer_as), unfolding(crate::specs::Views::state, crate::specs::Views::scopes, crate::specs::Views::names))]
    pub fn show(&mut self, alloc: Global) -> Result<(), OutOfMemory>
        ensures { OnOk result (view.state self.new ≡ spec.shown (view.state self.old)) }
    {
        let coming = replace(&mut self.coming, Names::new(alloc));
        self.scopes.declare_all(coming)
    }

    #[tactic(auto, unfolding(crate::specs::Declaring::announced))]
    fn announce_one(&mut self, alloc: Global, name: &Identifier) -> Result<(), CheckFault>
        ensures { Gives (λ _. tt) (step.announced name.now (view.state self.old)) result (view.state self.new) }
    {
        if self.is_declared(name) {
            return Err(CheckFault::At(Cause::TwiceDeclared, name.place));
        }
        self.comes(alloc, name, Meaning::Later)?;
        Ok(())
    }

    /// Each of the names must be new, and is taken from here on.
    pub fn announce(&mut self, alloc: Global, names: &[Identifier]) -> Result<(), CheckFault>
        ensures { Gives (λ _. tt) (spec.announce names.now (view.state self.old)) result (view.state self.new) }
    {
        for name in names {
            self.announce_one(alloc, name)?;
        }
        Ok(())
    }

    /// All the names have this meaning from here on, with what else the declaration in hand declared.
    #[tactic(auto, unfolding(check_rules::specs::Names::settle))]
    pub fn settle(
        &mut self,
        alloc: Global,
        names: &[Identifier],
        meaning: &Meaning,
    ) -> Result<(), CheckFault>
        ensures { Gives (λ _. tt) (spec.settle names.now (map (λ x. view.meaning meaning.now) names.now) (view.state self.old)) result (view.state self.new) }
    {
        for name in names {
            self.comes(alloc, name, meaning.share(alloc)?)?;
        }
        self.show(alloc)?;
        Ok(())
    }
}
