//! The state of checking, and the steps that only move what it holds.
ghost use Rattle.std.specs.Prelude.{◌≡◌, ◌∷◌, IfOk, OnOk};
ghost use Rattle.check_rules.specs.Names as naming;
ghost use Rattle.mesa_types.specs.Plain.{kinds_of};
ghost use Rattle.check_rules.specs.Steps as spec;
ghost use Rattle.check_rules.specs.Scopes.{innermost, nothing, outer};
ghost use Rattle.check_state.specs.Gives.{Gives};
ghost use Rattle.check_state.specs.Views as view;

use crate::counts::sum;
use crate::frame::Frame;
use crate::meaning::Meaning;
use check_rules::CheckFault;
use interface_records::check_scopes::{Marks, Names, Scopes};
use mesa_types::mesa_base::OutOfMemory;
use mesa_types::{Callee, Raised};
use std::alloc::Global;
use std::mem::replace;

/// What checking has found so far.
#[derive(Drop)]
pub struct State {
    /// The scopes around the place.
    pub scopes: Scopes<Meaning>,
    /// What the declaration in hand declares, which is not visible yet.
    pub coming: Names<Meaning>,
    /// For each import, which of its items the text names.
    pub used: Marks,
    pub globals: Frame,
    /// The variables of the procedure's blocks and arms so far.
    pub variables: Frame,
    pub hidden: u64,
    /// The words of the operands of the statement in hand.
    pub operands: u64,
}

impl State {
    /// So many words of operands more.
    #[tactic(auto, unfolding(crate::specs::Views::state))]
    pub fn spend(&mut self, words: u32) -> Result<(), CheckFault>
        ensures { Gives (λ _. tt) (spec.spend words (view.state self.old)) result (view.state self.new) }
    {
        self.operands = sum(self.operands, words)?;
        Ok(())
    }

    /// So many hidden words more.
    #[tactic(auto, unfolding(crate::specs::Views::state))]
    pub fn hide(&mut self, words: u32) -> Result<(), CheckFault>
        ensures { Gives (λ _. tt) (spec.hide words (view.state self.old)) result (view.state self.new) }
    {
        self.hidden = sum(self.hidden, words)?;
        Ok(())
    }

    /// Counts the words of operands from here on, and hands over those that were counted.
    #[tactic(auto, unfolding(crate::specs::Views::state))]
    pub fn count_from(&mut self, words: u64) -> u64
        ensures counted { result ≡ (view.state self.old).operands }
        ensures state { view.state self.new ≡ record (view.state self.old) { operands = words } }
    {
        replace(&mut self.operands, words)
    }

    /// Opens a scope, in which nothing is coming, and hands over what was coming outside.
    #[tactic(auto, unfolding(crate::specs::Views::state, crate::specs::Views::scopes, crate::specs::Views::names))]
    pub fn enter(
        &mut self,
        alloc: Global,
        scope: Names<Meaning>,
    ) -> Result<Names<Meaning>, OutOfMemory>
        ensures coming { IfOk result (λ coming. view.names coming ≡ (view.state self.old).coming) }
        ensures state { OnOk result (view.state self.new ≡ record (view.state self.old) { scopes = view.names scope ∷ (view.state self.old).scopes; coming = nothing }) }
    {
        self.scopes.enter(scope)?;
        Ok(replace(&mut self.coming, Names::new(alloc)))
    }

    /// Closes the innermost scope; this was coming outside.
    #[tactic(auto, using(crate::proofs::ScopeLaws::outer_as), unfolding(crate::specs::Views::state, crate::specs::Views::scopes, crate::specs::Views::names))]
    pub fn leave(&mut self, coming: Names<Meaning>)
        ensures { view.state self.new ≡ record (view.state self.old) { scopes = outer (view.state self.old).scopes; coming = view.names coming } }
    {
        let _ = self.scopes.leave();
        self.coming = coming;
    }

    /// The innermost scope as it is now.
    #[tactic(auto, using(crate::proofs::ScopeLaws::innermost_as), unfolding(crate::specs::Views::state, crate::specs::Views::scopes, crate::specs::Views::names))]
    pub fn top(&mut self, alloc: Global) -> Result<Names<Meaning>, OutOfMemory>
        ensures names { IfOk result (λ names. view.names names ≡ innermost (view.state self.old).scopes) }
        ensures state { OnOk result (view.state self.new ≡ view.state self.old) }
    {
        self.scopes.share(alloc)
    }

    /// Puts these names in the place of the innermost scope, and hands that over.
    #[tactic(auto, using(crate::proofs::ScopeLaws::innermost_as, crate::proofs::ScopeLaws::outer_as), unfolding(crate::specs::Views::state, crate::specs::Views::scopes, crate::specs::Views::names))]
    pub fn swap(
        &mut self,
        alloc: Global,
        scope: Names<Meaning>,
    ) -> Result<Names<Meaning>, OutOfMemory>
        ensures names { IfOk result (λ old. view.names old ≡ innermost (view.state self.old).scopes) }
        ensures state { OnOk result (view.state self.new ≡ spec.with_top (view.names scope) (view.state self.old)) }
    {
        let old = match self.scopes.leave() {
            Some(names) => names,
            None => Names::new(alloc),
        };
        self.scopes.enter(scope)?;
        Ok(old)
    }

    /// The same scopes once more, and what is coming.
    #[tactic(auto, unfolding(crate::specs::Views::state, crate::specs::Views::scopes, crate::specs::Views::names))]
    fn copied_names(
        &mut self,
        alloc: Global,
    ) -> Result<(Scopes<Meaning>, Names<Meaning>), OutOfMemory>
        ensures scopes { IfOk result (λ both. view.scopes both.0 ≡ (view.state self.old).scopes) }
        ensures coming { IfOk result (λ both. view.names both.1 ≡ (view.state self.old).coming) }
        ensures stays { OnOk result (view.state self.new ≡ view.state self.old) }
    {
        let scopes = self.scopes.copy(alloc)?;
        let coming = self.coming.share(alloc)?;
        Ok((scopes, coming))
    }

    /// The same variables once more, those of the module and those of the procedure.
    #[tactic(auto, unfolding(crate::specs::Views::state))]
    fn copied_frames(&mut self, alloc: Global) -> Result<(Frame, Frame), OutOfMemory>
        ensures globals { IfOk result (λ both. kinds_of both.0.fields ≡ (view.state self.old).globals) }
        ensures variables { IfOk result (λ both. kinds_of both.1.fields ≡ (view.state self.old).variables) }
        ensures stays { OnOk result (view.state self.new ≡ view.state self.old) }
    {
        let globals = self.globals.share(alloc)?;
        let variables = self.variables.share(alloc)?;
        Ok((globals, variables))
    }

    /// The same state once more.
    #[tactic(auto, unfolding(crate::specs::Views::state))]
    fn copied(&mut self, alloc: Global) -> Result<State, OutOfMemory>
        ensures same { IfOk result (λ more. view.state more ≡ view.state self.old) }
        ensures stays { OnOk result (view.state self.new ≡ view.state self.old) }
    {
        let used = self.used.copy(alloc)?;
        let (scopes, coming) = self.copied_names(alloc)?;
        let (globals, variables) = self.copied_frames(alloc)?;
        Ok(State {
            scopes,
            coming,
            used,
            globals,
            variables,
            hidden: self.hidden,
            operands: self.operands,
        })
    }

    /// The same state twice, in a number of steps that grows with it but little (`Names::share`, `GrowingFields::twice`); the marks
    /// alone are copied.
    pub fn twice(self, alloc: Global) -> Result<(State, State), OutOfMemory>
        ensures { IfOk result (λ both. (view.state both.0 ≡ view.state self) × (view.state both.1 ≡ view.state self)) }
    {
        let mut same = self;
        let more = same.copied(alloc)?;
        Ok((same, more))
    }

    #[tactic(auto, using(crate::proofs::ScopeLaws::marks_or_none), unfolding(crate::specs::Views::state))]
    fn use_item(&mut self, import: u32, item: u32)
        ensures { view.state self.new ≡ naming.use_item import item (view.state self.old) }
    {
        self.used.mark(import as usize, item as usize);
    }

    /// Where the meaning is that of an imported item, it is used from here on.
    #[tactic(auto, unfolding(check_rules::specs::Names::mark))]
    pub fn mark(&mut self, meaning: &Meaning)
        ensures { view.state self.new ≡ naming.mark (view.meaning meaning.now) (view.state self.old) }
    {
        match meaning {
            Meaning::Procedure(Callee::LinkedProcedure(import, item), _)
            | Meaning::Signal(Raised::LinkedSignal(import, item), _) => {
                self.use_item(*import, *item)
            }
            _ => {}
        }
    }
}
