//! Names with what each means, in one ordered index.
ghost use Rattle.std.specs.Prelude.{◌≡◌, ◌+◌, true, Some, IfOk, OnOk, OnErr, IfSome, IfNone, is_some};
ghost use Rattle.std.specs.Option.{option_copied};
ghost use Rattle.check_scopes.specs.Scopes as spec;
ghost use Rattle.check_scopes.specs.Counts.{how_many, without};
ghost use Rattle.check_scopes.specs.Shows.{listed, valued};

use mesa_base::OutOfMemory;
use std::alloc::Global;
use std::collections::BTreeMap;
use std::rc::Rc;

/// Names, each with what it means: an ordered index, so that a look-up or a declaration among n names takes log n
/// steps.
#[derive(Drop)]
pub struct Index<T> {
    pub index: BTreeMap<Vec<u8>, T>,
}

impl<T> Index<T> {
    /// No names. It takes no memory.
    #[tactic(auto, unfolding(crate::specs::Shows::indexed, crate::specs::Shows::listed))]
    pub fn new(alloc: Global) -> Index<T>
        ensures { listed result ≡ spec.nothing }
    {
        Index {
            index: BTreeMap::new(alloc),
        }
    }

    /// What the name means here, if anything.
    #[tactic(auto, unfolding(crate::specs::Shows::indexed, crate::specs::Shows::listed))]
    pub fn get(&self, name: &[u8]) -> Option<&T>
        ensures { option_copied result ≡ listed self.now name.now }
    {
        self.index.get(name)
    }

    #[tactic(auto, unfolding(crate::specs::Shows::indexed, crate::specs::Shows::listed))]
    pub fn has(&self, name: &[u8]) -> bool
        ensures { result ≡ is_some (listed self.now name.now) }
    {
        self.index.contains_key(name)
    }
}

impl<T> Index<T> {
    pub fn is_empty(&self) -> bool
        ensures { result ≡ true → listed self.now ≡ spec.nothing }
    {
        self.index.is_empty()
    }

    pub fn len(&self) -> usize {
        self.index.len()
    }
}

impl<T: Drop> Index<Rc<T>> {
    /// The same names with the same meanings, each of which has one owner more.
    pub fn copied(&self) -> Result<Index<Rc<T>>, OutOfMemory>
        ensures { IfOk result (λ copy. valued copy ≡ valued self.now) }
    {
        Ok(Index {
            index: self.index.clone()?,
        })
    }
}

impl<T: Drop> Index<T> {
    /// Gives the name this meaning, whatever it meant before. Where memory runs out all names are as before.
    #[tactic(auto, unfolding(crate::specs::Shows::indexed, crate::specs::Shows::listed))]
    pub fn declare(&mut self, alloc: Global, name: &[u8], meaning: T) -> Result<(), OutOfMemory>
        ensures ok { OnOk result (listed self.new ≡ spec.with_name name.now meaning (listed self.old)) }
        ensures err { OnErr result (listed self.new ≡ listed self.old) }
    {
        let name = Vec::from_slice(alloc, name)?;
        self.index.insert(name, meaning)?;
        Ok(())
    }

    /// Gives the name this meaning unless it has one. Where memory runs out all names are as before.
    #[tactic(auto, unfolding(crate::specs::Shows::indexed, crate::specs::Shows::listed))]
    pub fn declare_first(
        &mut self,
        alloc: Global,
        name: &[u8],
        meaning: T,
    ) -> Result<(), OutOfMemory>
        ensures ok { OnOk result (listed self.new ≡ spec.over (listed self.old) (spec.with_name name.now meaning spec.nothing)) }
        ensures err { OnErr result (listed self.new ≡ listed self.old) }
    {
        if self.has(name) {
            return Ok(());
        }
        self.declare(alloc, name, meaning)
    }

    /// Gives all these names their meanings, whatever they meant before. Where memory runs out some of them have theirs.
    #[tactic(auto, unfolding(crate::specs::Shows::indexed, crate::specs::Shows::listed))]
    pub fn declare_all(&mut self, names: Index<T>) -> Result<(), OutOfMemory>
        ensures { OnOk result (listed self.new ≡ spec.over (listed names) (listed self.old)) }
    {
        let mut rest = names.index;
        while let Some((name, meaning)) = rest.pop_first() {
            self.index.insert(name, meaning)?;
        }
        Ok(())
    }

    /// Takes a name out with its meaning; None exactly where there is no name.
    #[tactic(auto, unfolding(crate::specs::Counts::how_many, crate::specs::Shows::indexed, crate::specs::Shows::listed))]
    pub fn pop_first(&mut self) -> Option<(Vec<u8>, T)>
        ensures meaning { IfSome result (λ one. listed self.old one.0.items ≡ Some one.1) }
        ensures left { IfSome result (λ one. listed self.new ≡ without one.0.items (listed self.old)) }
        ensures fewer { IfSome result (λ one. how_many self.new + 1 ≡ how_many self.old) }
        ensures none { IfNone result (listed self.old ≡ spec.nothing) }
    {
        match self.index.pop_first() {
            Some((name, meaning)) => Some((name, meaning)),
            None => None,
        }
    }
}
