use flight_value::{Atom, List, Memory, Name, Shared, Text, is_date};
use std::cmp::Ordering;
use std::test::Fail;

/// A name at an address.
fn name(rt: &HostRuntime, address: &[u32], serial: u32) -> Result<Name, Memory> {
    let items = Vec::from_slice(rt.alloc(), address)?;
    let render = Shared::new(rt.alloc(), List::new(items))?;
    Ok(Name { render, serial })
}

#[test]
fn makes_values_with_ample_memory(rt: HostRuntime) -> Result<(), Fail> {
    let text = Text::new(rt.alloc(), "a\u{e9}")?;
    assert!(rt; text.as_str() == "a\u{e9}");
    let copy = Atom::Text(text).copy()?;
    assert!(rt; copy == Atom::Text(Text::from_string(String::from_str(rt.alloc(), "a\u{e9}")?)?));
    let shared = Shared::new(rt.alloc(), 7u32)?.share()?;
    assert!(rt; *shared.get() == 7);
    Ok(())
}

#[test]
fn orders_names(rt: HostRuntime) -> Result<(), Fail> {
    let low = name(&rt, [1].as_slice(), 9)?;
    let high = name(&rt, [1, 0].as_slice(), 2)?;
    assert!(rt; low.compare(&high) == Ordering::Less);
    let inner = high.inner(rt.alloc())?;
    assert!(rt; inner.get().as_slice() == [1, 0, 2].as_slice());
    Ok(())
}

#[test]
fn tells_dates(rt: HostRuntime) -> Result<(), Fail> {
    for text in [
        "2024-01-02T03:04:05.678Z",
        "+012024-01-02T03:04:05.678Z",
        "-000001-99-99T99:99:99.999Z",
    ] {
        assert!(rt; is_date(text), "{text}");
    }
    for text in [
        "",
        "2024-01-02",
        "2024-01-02T03:04:05.678z",
        "2024-01-02T03:04:05.678Z ",
        "012024-01-02T03:04:05.678Z",
        "+2024-01-02T03:04:05.678Z",
        "d024-01-02T03:04:05.678Z",
    ] {
        assert!(rt; !is_date(text), "{text}");
    }
    Ok(())
}
