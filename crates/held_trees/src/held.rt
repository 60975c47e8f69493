//! Values that are held while more is read: where the reading fails they are let go.
ghost use Rattle.std.specs.Prelude.{◌≡◌, ◌++◌, ◌∷◌, [], IfOk, OnOk, MatchResult, Ok, Err};

use crate::letting::{InBox, InList, InShared, LetGo};
use mesa_base::{Boxed, List, OutOfMemory, Shared};
use std::alloc::{AllocFailed, Global};

/// The first beside what was read. Where nothing was, the first is let go.
pub fn both<A: LetGo, B, E>(first: A, second: Result<B, E>) -> Result<(A, B), E>
    ensures { MatchResult result (λ read. (read.0 ≡ first) × (second ≡ Ok read.1)) (λ why. second ≡ Err why) }
{
    match second {
        Ok(second) => Ok((first, second)),
        Err(why) => {
            first.let_go();
            Err(why)
        }
    }
}

/// A box of the part.
pub fn boxed<T: InBox>(alloc: Global, part: T) -> Result<Boxed<T>, OutOfMemory>
    ensures { IfOk result (λ made. made ≡ part) }
{
    T::boxed(alloc, part)
}

/// A box of each of the two.
pub fn boxed_pair<T: InBox>(
    alloc: Global,
    first: T,
    second: T,
) -> Result<(Boxed<T>, Boxed<T>), OutOfMemory>
    ensures { IfOk result (λ made. (made.0 ≡ first) × (made.1 ≡ second)) }
{
    let (second, first) = both(second, T::boxed(alloc, first))?;
    both(first, T::boxed(alloc, second))
}

/// Puts the part at the end of the list.
pub fn put<T: InList>(list: &mut List<T>, part: T) -> Result<(), OutOfMemory>
    ensures { OnOk result (list.new ≡ list.old ++ part ∷ []) }
{
    match list.push(part) {
        Ok(()) => Ok(()),
        Err(failed) => {
            let AllocFailed { value } = failed;
            value.let_go();
            Err(OutOfMemory)
        }
    }
}

/// The list with the part at its end.
pub fn pushed<T: InList>(mut list: List<T>, part: T) -> Result<List<T>, OutOfMemory>
    ensures { IfOk result (λ longer. longer ≡ list ++ part ∷ []) }
{
    match list.push(part) {
        Ok(()) => Ok(list),
        Err(failed) => {
            let AllocFailed { value } = failed;
            value.let_go();
            T::let_list_go(list);
            Err(OutOfMemory)
        }
    }
}

/// The part with one owner.
pub fn shared<T: InShared>(alloc: Global, part: T) -> Result<Shared<T>, OutOfMemory>
    ensures { IfOk result (λ made. made ≡ part) }
{
    T::shared(alloc, part)
}

/// One more owner of the part, in one step.
pub fn share<T: InShared>(part: &Shared<T>) -> Result<Shared<T>, OutOfMemory>
    ensures { IfOk result (λ made. made ≡ part.now) }
{
    T::share(part)
}
