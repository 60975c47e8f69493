//! Names that are shared, and then declared on.

use check_scopes::Names;
use mesa_base::OutOfMemory;
use std::alloc::Global;
use std::test::Fail;

const ALL: [&[u8]; 9] = [b"a", b"b", b"c", b"d", b"e", b"f", b"g", b"h", b"i"];

fn means(names: &Names<usize>, name: &[u8], meaning: usize) -> bool {
    names.get(name).copied() == Some(meaning)
}

/// Declares all names, and gives what was shared before each.
fn shared_before_each(
    alloc: Global,
    names: &mut Names<usize>,
) -> Result<Vec<Names<usize>>, OutOfMemory> {
    let mut seen = Vec::new(alloc);
    for (n, name) in ALL.iter().enumerate() {
        seen.push(names.share(alloc)?)?;
        names.declare(alloc, name, n)?;
    }
    Ok(seen)
}

/// Whether what was shared has the first names and no other.
fn has_the_first(shared: &Names<usize>, count: usize) -> bool {
    let mut has = true;
    for (n, name) in ALL.iter().enumerate() {
        has = has && shared.has(name) == (n < count);
    }
    has
}

fn each_stays(alloc: Global) -> Result<bool, Fail> {
    let mut names = Names::new(alloc);
    let seen = shared_before_each(alloc, &mut names)?;
    names.declare(alloc, b"c", 10)?;
    let mut stay = has_the_first(&names, 9);
    for (count, shared) in seen.iter().enumerate() {
        stay = stay && has_the_first(shared, count);
    }
    let sixth = seen.get(5).ok_or("no scope")?;
    Ok(stay && means(sixth, b"c", 2) && means(&names, b"c", 10) && means(&names, b"i", 8))
}

#[test]
fn shared_names_stay(rt: HostRuntime) -> Result<(), Fail> {
    assert!(rt; each_stays(rt.alloc())?);
    Ok(())
}

fn goes_on_apart(alloc: Global) -> Result<bool, Fail> {
    let mut names = Names::new(alloc);
    let _ = shared_before_each(alloc, &mut names)?;
    names.declare(alloc, b"c", 10)?;
    let mut later = names.share(alloc)?;
    later.declare(alloc, b"d", 11)?;
    let stay = means(&names, b"c", 10)
        && means(&names, b"d", 3)
        && means(&later, b"c", 10)
        && means(&later, b"d", 11);
    let mut rest = later.into_index()?;
    let are_nine = stay && rest.len() == 9;
    let (first, meaning) = rest.pop_first().ok_or("no name")?;
    Ok(are_nine && first.as_slice() == b"a".as_slice() && *meaning == 0)
}

#[test]
fn what_shares_goes_on_apart(rt: HostRuntime) -> Result<(), Fail> {
    assert!(rt; goes_on_apart(rt.alloc())?);
    Ok(())
}
