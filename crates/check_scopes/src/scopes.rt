//! Scopes in one another: what a name means in the innermost one that has it, and what is declared in the innermost.
ghost use Rattle.std.specs.Prelude.{◌≡◌, [], ◌∷◌, OnOk, OnErr, IfOk, IfNone, IfSome, is_some, map, reverse};
ghost use Rattle.std.specs.Option.{option_copied};
ghost use Rattle.check_scopes.specs.Scopes as spec;
ghost use Rattle.check_scopes.specs.Shows.{means, shows};

use crate::names::Names;
use mesa_base::OutOfMemory;
use std::alloc::Global;

/// Scopes in one another, the innermost at the end.
#[derive(Drop)]
pub struct Scopes<T> {
    scopes: Vec<Names<T>>,
}

fn search<'a, T>(mut scopes: &'a [Names<T>], name: &[u8]) -> Option<&'a T>
    ensures { option_copied result ≡ spec.find name.now (map means (reverse scopes.entry.now)) }
{
    while let Some((names, rest)) = scopes.split_last() {
        if let Some(meaning) = names.get(name) {
            return Some(meaning);
        }
        scopes = rest;
    }
    None
}

impl<T> Scopes<T> {
    /// No scope is open. It takes no memory.
    #[tactic(auto, unfolding(crate::specs::Shows::shows))]
    pub fn new(alloc: Global) -> Scopes<T>
        ensures { shows result ≡ [] }
    {
        Scopes {
            scopes: Vec::new(alloc),
        }
    }

    /// What the name means in the innermost scope that has it. It asks each open scope once at most.
    #[tactic(auto, unfolding(crate::specs::Shows::shows))]
    pub fn find(&self, name: &[u8]) -> Option<&T>
        ensures { option_copied result ≡ spec.find name.now (shows self.now) }
    {
        search(self.scopes.as_slice(), name)
    }

    /// Whether the innermost scope has the name.
    #[tactic(auto, unfolding(crate::specs::Shows::shows))]
    pub fn is_declared(&self, name: &[u8]) -> bool
        ensures { result ≡ is_some (spec.innermost (shows self.now) name.now) }
    {
        match self.scopes.as_slice().split_last() {
            None => false,
            Some((names, _)) => names.has(name),
        }
    }
}

impl<T: Drop> Scopes<T> {
    /// Opens a scope of these names inside the others. Where memory runs out the scopes are as before.
    #[tactic(auto, unfolding(crate::specs::Shows::shows))]
    pub fn enter(&mut self, names: Names<T>) -> Result<(), OutOfMemory>
        ensures ok { OnOk result (shows self.new ≡ means names ∷ shows self.old) }
        ensures err { OnErr result (shows self.new ≡ shows self.old) }
    {
        self.scopes.push(names)?;
        Ok(())
    }

    /// Closes the innermost scope and hands its names over; None exactly where none was open.
    #[tactic(auto, unfolding(crate::specs::Shows::shows))]
    pub fn leave(&mut self) -> Option<Names<T>>
        ensures left { shows self.new ≡ spec.outer (shows self.old) }
        ensures names { IfSome result (λ names. means names ≡ spec.innermost (shows self.old)) }
        ensures some { IfSome result (λ names. shows self.old ≡ means names ∷ shows self.new) }
        ensures none { IfNone result (shows self.old ≡ []) }
    {
        self.scopes.pop()
    }

    /// Gives the name this meaning in the innermost scope, whatever it meant there before; where no scope is open it opens one.
    /// Where memory runs out the scopes are as before.
    #[tactic(auto, unfolding(crate::specs::Shows::shows))]
    pub fn declare(&mut self, alloc: Global, name: &[u8], meaning: T) -> Result<(), OutOfMemory>
        ensures ok { OnOk result (shows self.new ≡ spec.with_name name.now meaning (spec.innermost (shows self.old)) ∷ spec.outer (shows self.old)) }
        ensures err { OnErr result (shows self.new ≡ shows self.old) }
    {
        if let Some(names) = self.scopes.last_mut() {
            return names.declare(alloc, name, meaning);
        }
        let mut names = Names::new(alloc);
        names.declare(alloc, name, meaning)?;
        self.scopes.push(names)?;
        Ok(())
    }

    /// Gives all these names their meanings in the innermost scope, whatever they meant there before; where no scope is open it
    /// opens one. Where memory runs out some of them have theirs.
    #[tactic(auto, unfolding(crate::specs::Shows::shows))]
    pub fn declare_all(&mut self, names: Names<T>) -> Result<(), OutOfMemory>
        ensures { OnOk result (shows self.new ≡ spec.over (means names) (spec.innermost (shows self.old)) ∷ spec.outer (shows self.old)) }
    {
        if let Some(innermost) = self.scopes.last_mut() {
            return innermost.declare_all(names);
        }
        self.scopes.push(names)?;
        Ok(())
    }

    /// The names of the innermost scope as they are now (`Names::share`); none where no scope is open.
    #[tactic(auto, unfolding(crate::specs::Shows::shows))]
    pub fn share(&mut self, alloc: Global) -> Result<Names<T>, OutOfMemory>
        ensures same { IfOk result (λ names. means names ≡ spec.innermost (shows self.old)) }
        ensures stays { OnOk result (shows self.new ≡ shows self.old) }
    {
        match self.scopes.last_mut() {
            Some(names) => names.share(alloc),
            None => Ok(Names::new(alloc)),
        }
    }

    /// The same scopes once more (`Names::share`).
    #[tactic(auto, unfolding(crate::specs::Shows::shows))]
    pub fn copy(&mut self, alloc: Global) -> Result<Scopes<T>, OutOfMemory>
        ensures same { IfOk result (λ scopes. shows scopes ≡ shows self.old) }
        ensures stays { OnOk result (shows self.new ≡ shows self.old) }
    {
        let mut scopes = Vec::new(alloc);
        for at in 0..self.scopes.len() {
            scopes.push(self.scopes[at].share(alloc)?)?;
        }
        Ok(Scopes { scopes })
    }
}
