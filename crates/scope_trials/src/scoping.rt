//! Scopes in one another.

use crate::naming::means;
use check_scopes::{Names, Scopes};
use mesa_base::{OutOfMemory, Shared};
use std::alloc::Global;
use std::rc::Rc;
use std::test::Fail;

fn finds(scopes: &Scopes<u32>, name: &[u8], meaning: u32) -> bool {
    scopes.find(name).copied() == Some(meaning)
}

/// Two names, and inside their scope two others, one of which hides.
fn nested(alloc: Global) -> Result<Scopes<u32>, OutOfMemory> {
    let mut scopes = Scopes::new(alloc);
    scopes.declare(alloc, b"a", 1)?;
    scopes.declare(alloc, b"b", 2)?;
    scopes.enter(Names::new(alloc))?;
    scopes.declare(alloc, b"a", 3)?;
    let mut more = Names::new(alloc);
    more.declare(alloc, b"c", 4)?;
    scopes.declare_all(more)?;
    Ok(scopes)
}

fn are_nested(alloc: Global) -> Result<bool, Fail> {
    let mut scopes = nested(alloc)?;
    let are = scopes.is_declared(b"a") && scopes.is_declared(b"c") && !scopes.is_declared(b"b");
    let are = are && finds(&scopes, b"a", 3) && finds(&scopes, b"b", 2);
    let inner = scopes.leave().ok_or("no scope")?;
    Ok(are && means(&inner, b"a", 3) && finds(&scopes, b"a", 1) && scopes.find(b"c").is_none())
}

#[test]
fn scopes(rt: HostRuntime) -> Result<(), Fail> {
    let alloc = rt.alloc();
    assert!(rt; Scopes::<u32>::new(alloc).leave().is_none());
    assert!(rt; are_nested(alloc)?);
    Ok(())
}

fn is_let_go(alloc: Global) -> Result<bool, Fail> {
    let held = Rc::new(alloc, 7)?;
    let mut scopes = Scopes::new(alloc);
    scopes.enter(Names::new(alloc))?;
    scopes.declare(alloc, b"a", held.clone()?)?;
    let is_held = Rc::strong_count(&held) == 2;
    scopes.declare(alloc, b"a", held.clone()?)?;
    let is_held_once = is_held && Rc::strong_count(&held) == 2;
    let left = scopes.leave();
    let is_left = is_held_once && left.is_some();
    drop(left);
    Ok(is_left && Rc::strong_count(&held) == 1)
}

#[test]
fn what_is_left_is_let_go(rt: HostRuntime) -> Result<(), Fail> {
    assert!(rt; is_let_go(rt.alloc())?);
    Ok(())
}

fn finds_shared(scopes: &Scopes<Shared<u32>>, name: &[u8], meaning: u32) -> bool {
    scopes.find(name).is_some_and(|it| *it.get() == meaning)
}

/// A scope of so many names.
fn wide(alloc: Global, count: u32) -> Result<Scopes<Shared<u32>>, Fail> {
    let mut scopes = Scopes::new(alloc);
    scopes.enter(Names::new(alloc))?;
    for i in 0..count {
        let name = format!(in alloc; "x{i}")?;
        scopes.declare(alloc, name.as_bytes(), Shared::new(alloc, i)?)?;
    }
    Ok(scopes)
}

/// Enters so many scopes, each with one name.
fn deepen(alloc: Global, scopes: &mut Scopes<Shared<u32>>, count: u32) -> Result<(), Fail> {
    for i in 0..count {
        scopes.enter(Names::new(alloc))?;
        scopes.declare(alloc, b"x5", Shared::new(alloc, i)?)?;
    }
    Ok(())
}

fn are_many(alloc: Global) -> Result<bool, Fail> {
    let mut scopes = wide(alloc, 16384)?;
    deepen(alloc, &mut scopes, 200)?;
    let are = finds_shared(&scopes, b"x16383", 16383) && finds_shared(&scopes, b"x5", 199);
    for _ in 0..200u32 {
        let _ = scopes.leave();
    }
    Ok(are && finds_shared(&scopes, b"x5", 5))
}

#[test]
fn many_names_and_many_scopes(rt: HostRuntime) -> Result<(), Fail> {
    assert!(rt; are_many(rt.alloc())?);
    Ok(())
}

fn copies_stay(alloc: Global) -> Result<bool, Fail> {
    let mut scopes = Scopes::new(alloc);
    scopes.declare(alloc, b"a", 1)?;
    scopes.enter(Names::new(alloc))?;
    scopes.declare(alloc, b"b", 2)?;
    let mut copy = scopes.copy(alloc)?;
    scopes.declare(alloc, b"a", 3)?;
    copy.declare(alloc, b"b", 4)?;
    let stay = finds(&scopes, b"a", 3)
        && finds(&scopes, b"b", 2)
        && finds(&copy, b"a", 1)
        && finds(&copy, b"b", 4);
    let _ = copy.leave();
    Ok(stay && finds(&copy, b"a", 1))
}

#[test]
fn copied_scopes_stay(rt: HostRuntime) -> Result<(), Fail> {
    assert!(rt; copies_stay(rt.alloc())?);
    Ok(())
}
