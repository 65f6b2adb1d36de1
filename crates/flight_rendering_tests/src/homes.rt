use flight_home::Home;
use flight_text::Ref;
use flight_value::{Key, List, Memory, Name, Shared, Text};
use std::test::Fail;

/// A node that the body at an address made.
fn made(rt: &HostRuntime, address: &[u32], serial: u32) -> Result<Key, Memory> {
    let items = Vec::from_slice(rt.alloc(), address)?;
    let render = Shared::new(rt.alloc(), List::new(items))?;
    Ok(Key::Made(Name { render, serial }))
}

/// The place of a row to which one step leads.
fn place(rt: &HostRuntime, id: u32, step: &str) -> Result<Ref, Memory> {
    let mut path = Vec::new(rt.alloc());
    path.push(Text::new(rt.alloc(), step)?)?;
    Ok(Ref {
        id,
        path: List::new(path),
    })
}

/// Puts a home, unless the key has one.
fn add(home: &mut Home, key: Key, at: Ref) -> Result<(), Memory> {
    match home.get(&key) {
        Some(_) => Ok(()),
        None => home.put(key, at),
    }
}

#[test]
fn keeps_homes_by_their_keys_and_goes_back(rt: HostRuntime) -> Result<(), Fail> {
    let mut home = Home::new(rt.alloc());
    add(
        &mut home,
        made(&rt, [1, 0].as_slice(), 2)?,
        place(&rt, 3, "a")?,
    )?;
    let symbol = Key::Symbol(Text::new(rt.alloc(), "s")?);
    add(&mut home, symbol, place(&rt, 4, "b")?)?;
    assert!(rt; home.len() == 2);
    // An equal key with an address of its own.
    let found = home.get(&made(&rt, [1, 0].as_slice(), 2)?);
    assert!(rt; matches!(found, Some(at) if at.id == 3 && at.path.as_slice().len() == 1));
    assert!(rt; home.get(&made(&rt, [1, 0].as_slice(), 3)?).is_none());
    assert!(rt; home.get(&Key::Stream { stream: 2 }).is_none());
    assert!(rt; matches!(home.entry(1), Some((Key::Symbol(_), at)) if at.id == 4));
    home.cut(1);
    assert!(rt; home.len() == 1 && home.entry(1).is_none());
    let symbol = Key::Symbol(Text::new(rt.alloc(), "s")?);
    assert!(rt; home.get(&symbol).is_none());
    add(&mut home, symbol, place(&rt, 5, "b")?)?;
    assert!(rt; home.len() == 2);
    Ok(())
}
