//! Names in one scope.

use check_scopes::Names;
use mesa_base::OutOfMemory;
use std::alloc::Global;
use std::test::Fail;

/// Whether the name has this meaning.
pub fn means(names: &Names<u32>, name: &[u8], meaning: u32) -> bool {
    names.get(name).copied() == Some(meaning)
}

/// Some names, one of them declared again, two declared only where they were not, and two declared together.
fn declared(alloc: Global) -> Result<Names<u32>, OutOfMemory> {
    let mut names = Names::new(alloc);
    names.declare(alloc, b"a", 1)?;
    names.declare(alloc, b"b", 2)?;
    names.declare(alloc, b"a", 3)?;
    names.declare_first(alloc, b"a", 4)?;
    names.declare_first(alloc, b"ab", 5)?;
    let mut inner = Names::new(alloc);
    inner.declare(alloc, b"b", 6)?;
    inner.declare(alloc, b"c", 7)?;
    names.declare_all(inner)?;
    Ok(names)
}

fn are_declared(alloc: Global) -> Result<bool, OutOfMemory> {
    let names = declared(alloc)?;
    let are = means(&names, b"a", 3)
        && means(&names, b"b", 6)
        && means(&names, b"c", 7)
        && means(&names, b"ab", 5);
    Ok(are && names.has(b"c") && !names.has(b"A"))
}

#[test]
fn names(rt: HostRuntime) -> Result<(), Fail> {
    assert!(rt; !Names::<u32>::new(rt.alloc()).has(b"a"));
    assert!(rt; are_declared(rt.alloc())?);
    Ok(())
}
