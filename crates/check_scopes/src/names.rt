//! The names of one scope, each with what it means, which can be shared as they are.
ghost use Rattle.std.specs.Prelude.{◌≡◌, IfOk, OnOk, OnErr, is_some};
ghost use Rattle.std.specs.Option.{option_copied};
ghost use Rattle.check_scopes.specs.Scopes as spec;
ghost use Rattle.check_scopes.specs.Shows.{layered, means, valued};

use crate::index::Index;
use crate::layers::{found, joined_all, merge, shared_all};
use mesa_base::{OutOfMemory, Shared};
use std::alloc::Global;
use std::mem::replace;
use std::rc::Rc;

/// The names of one scope, each with what it means. Among n names a look-up or a declaration takes at most log n looks into ordered
/// indexes. The names as they are can be shared, in a number of steps that grows with n but little (`share`): what is declared later is not
/// seen through what was shared before.
#[derive(Drop)]
pub struct Names<T> {
    newest: Index<Rc<T>>,
    /// What was shared, the newest at the end; each is less than half as large as the one before it.
    frozen: Vec<Shared<Index<Rc<T>>>>,
}

impl<T> Names<T> {
    /// No names. It takes no memory.
    #[tactic(auto, unfolding(crate::specs::Shows::means))]
    pub fn new(alloc: Global) -> Names<T>
        ensures { means result ≡ spec.nothing }
    {
        Names {
            newest: Index::new(alloc),
            frozen: Vec::new(alloc),
        }
    }

    /// What the name means here, if anything.
    #[tactic(auto, unfolding(crate::specs::Shows::means))]
    pub fn get(&self, name: &[u8]) -> Option<&T>
        ensures { option_copied result ≡ means self.now name.now }
    {
        match self.newest.get(name) {
            Some(meaning) => Some(meaning),
            None => found(self.frozen.as_slice(), name),
        }
    }

    pub fn has(&self, name: &[u8]) -> bool
        ensures { result ≡ is_some (means self.now name.now) }
    {
        self.get(name).is_some()
    }
}

impl<T: Drop> Names<T> {
    /// Gives the name this meaning, whatever it meant before. Where memory runs out all names are as before.
    #[tactic(auto, unfolding(crate::specs::Shows::means))]
    pub fn declare(&mut self, alloc: Global, name: &[u8], meaning: T) -> Result<(), OutOfMemory>
        ensures ok { OnOk result (means self.new ≡ spec.with_name name.now meaning (means self.old)) }
        ensures err { OnErr result (means self.new ≡ means self.old) }
    {
        let meaning = Rc::new(alloc, meaning)?;
        self.newest.declare(alloc, name, meaning)
    }

    /// Gives the name this meaning unless it has one. Where memory runs out all names are as before.
    pub fn declare_first(
        &mut self,
        alloc: Global,
        name: &[u8],
        meaning: T,
    ) -> Result<(), OutOfMemory>
        ensures ok { OnOk result (means self.new ≡ spec.over (means self.old) (spec.with_name name.now meaning spec.nothing)) }
        ensures err { OnErr result (means self.new ≡ means self.old) }
    {
        if self.has(name) {
            return Ok(());
        }
        self.declare(alloc, name, meaning)
    }

    /// Gives all these names their meanings, whatever they meant before. Where memory runs out some of them have theirs.
    #[tactic(auto, unfolding(crate::specs::Shows::means))]
    pub fn declare_all(&mut self, names: Names<T>) -> Result<(), OutOfMemory>
        ensures { OnOk result (means self.new ≡ spec.over (means names) (means self.old)) }
    {
        let names = names.into_index()?;
        self.newest.declare_all(names)
    }

    /// All names with their meanings, in one index.
    #[tactic(auto, unfolding(crate::specs::Shows::means))]
    pub fn into_index(self) -> Result<Index<Rc<T>>, OutOfMemory>
        ensures { IfOk result (λ index. valued index ≡ means self) }
    {
        let Names { newest, frozen } = self;
        joined_all(frozen.as_slice(), newest)
    }

    /// Puts what is newest to what can be shared.
    #[tactic(auto, unfolding(crate::specs::Shows::means))]
    fn freeze(&mut self, alloc: Global) -> Result<(), OutOfMemory>
        ensures { OnOk result (layered self.new.frozen.items ≡ means self.old) }
    {
        if self.newest.is_empty() {
            return Ok(());
        }
        let newest = replace(&mut self.newest, Index::new(alloc));
        self.frozen.push(Shared::new(alloc, newest)?)?;
        merge(alloc, &mut self.frozen)
    }

    /// The same names once more, with the same meanings. However often it is asked, a name is copied but some log n times.
    #[tactic(auto, unfolding(crate::specs::Shows::means))]
    pub fn share(&mut self, alloc: Global) -> Result<Names<T>, OutOfMemory>
        ensures same { IfOk result (λ names. means names ≡ means self.old) }
        ensures stays { OnOk result (means self.new ≡ means self.old) }
    {
        self.freeze(alloc)?;
        let frozen = shared_all(alloc, self.frozen.as_slice())?;
        self.newest = Index::new(alloc);
        Ok(Names {
            newest: Index::new(alloc),
            frozen,
        })
    }
}
