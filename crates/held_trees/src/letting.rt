//! What may be let go.
ghost use Rattle.std.specs.Prelude.{◌≡◌, IfOk};

use mesa_base::{Boxed, List, OutOfMemory, Placed, Shared};
use std::alloc::Global;

/// What may be let go by a call.
pub trait LetGo {
    fn let_go(self);
}

/// What lists are made of.
pub trait InList: LetGo {
    fn let_list_go(list: List<Self>);
}

/// What is put in boxes.
pub trait InBox: LetGo {
    fn boxed(alloc: Global, part: Self) -> Result<Boxed<Self>, OutOfMemory>
        ensures { IfOk result (λ made. made ≡ part) };
}

/// What has several owners.
pub trait InShared: LetGo {
    fn shared(alloc: Global, part: Self) -> Result<Shared<Self>, OutOfMemory>
        ensures { IfOk result (λ made. made ≡ part) };

    /// One more owner.
    fn share(part: &Shared<Self>) -> Result<Shared<Self>, OutOfMemory>
        ensures { IfOk result (λ made. made ≡ part.now) };

    fn let_shared_go(part: Shared<Self>);
}

/// What lists with several owners are made of.
pub trait InSharedList: InList {
    fn shared_list(alloc: Global, list: List<Self>) -> Result<Shared<List<Self>>, OutOfMemory>
        ensures { IfOk result (λ made. made ≡ list) };

    /// One more owner.
    fn share_list(list: &Shared<List<Self>>) -> Result<Shared<List<Self>>, OutOfMemory>
        ensures { IfOk result (λ made. made ≡ list.now) };

    fn let_shared_list_go(list: Shared<List<Self>>);
}

impl<T: InSharedList> InShared for List<T> {
    fn shared(alloc: Global, part: List<T>) -> Result<Shared<List<T>>, OutOfMemory> {
        T::shared_list(alloc, part)
    }

    fn share(part: &Shared<List<T>>) -> Result<Shared<List<T>>, OutOfMemory> {
        T::share_list(part)
    }

    fn let_shared_go(part: Shared<List<T>>) {
        T::let_shared_list_go(part);
    }
}

impl<T: InList> LetGo for List<T> {
    fn let_go(self) {
        T::let_list_go(self);
    }
}

impl<T: LetGo> LetGo for Boxed<T> {
    fn let_go(self) {
        self.into_inner().let_go();
    }
}

impl<T: InShared> LetGo for Shared<T> {
    fn let_go(self) {
        T::let_shared_go(self);
    }
}

impl<T: LetGo> LetGo for Placed<T> {
    fn let_go(self) {
        let Placed { place: _, item } = self;
        item.let_go();
    }
}

impl<T: LetGo> LetGo for Option<T> {
    fn let_go(self) {
        match self {
            Some(part) => part.let_go(),
            None => (),
        }
    }
}

impl<A: LetGo, B: LetGo> LetGo for (A, B) {
    fn let_go(self) {
        let (first, second) = self;
        first.let_go();
        second.let_go();
    }
}
