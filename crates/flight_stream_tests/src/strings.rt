use flight_text::{Marked, read_mark, spell_mark};
use std::test::Fail;

/// Whether a text is read as the mark so shown, and that mark written so.
fn is_mark(rt: &HostRuntime, text: &str, shown: &str, written: &str) -> Result<bool, Fail> {
    let mark = read_mark(rt.alloc(), text)?;
    let line = format!(in rt.alloc(); "{mark:?}")?;
    let out = spell_mark(rt.alloc(), &mark)?;
    Ok(line.as_str() == shown && out.as_str() == written)
}

#[test]
fn reads_and_writes_texts_and_references(rt: HostRuntime) -> Result<(), Fail> {
    for (text, shown, written) in [
        ("", r#"Plain("")"#, ""),
        ("a$", r#"Plain("a$")"#, "a$"),
        ("$$", r#"Plain("$")"#, "$$"),
        ("$$$L1", r#"Plain("$$L1")"#, "$$$L1"),
        ("$", "Element", "$"),
        ("$L0ff", "Lazy(255)", "$Lff"),
        ("$@7fffffff", "Promise(2147483647)", "$@7fffffff"),
        (
            "$0000000a",
            "Value(Ref { id: 10, path: List { items: [] } })",
            "$a",
        ),
        (
            "$d:x::\u{e9}",
            r#"Value(Ref { id: 13, path: List { items: ["x", "", "é"] } })"#,
            "$d:x::\u{e9}",
        ),
        (
            "$1:",
            r#"Value(Ref { id: 1, path: List { items: [""] } })"#,
            "$1:",
        ),
        (
            "$Q10:0",
            r#"Map(Ref { id: 16, path: List { items: ["0"] } })"#,
            "$Q10:0",
        ),
        ("$W0", "Set(Ref { id: 0, path: List { items: [] } })", "$W0"),
        ("$F1", "Action(1)", "$F1"),
        ("$h1", "Action(1)", "$F1"),
    ] {
        assert!(rt; is_mark(&rt, text, shown, written)?, "{text}");
    }
    Ok(())
}

#[test]
fn reads_and_writes_atoms(rt: HostRuntime) -> Result<(), Fail> {
    for (text, shown, written) in [
        (
            "$D2024-01-02T03:04:05.678Z",
            r#"Date("2024-01-02T03:04:05.678Z")"#,
            "$D2024-01-02T03:04:05.678Z",
        ),
        ("$n-0", "Big(0)", "$n0"),
        ("$n-007", "Big(-7)", "$n-7"),
        (
            "$n170141183460469231731687303715884105727",
            "Big(170141183460469231731687303715884105727)",
            "$n170141183460469231731687303715884105727",
        ),
        (
            "$n-170141183460469231731687303715884105728",
            "Big(-170141183460469231731687303715884105728)",
            "$n-170141183460469231731687303715884105728",
        ),
        ("$S", r#"Symbol("")"#, "$S"),
        (
            "$Sreact.suspense",
            r#"Symbol("react.suspense")"#,
            "$Sreact.suspense",
        ),
        ("$undefined", "Undefined", "$undefined"),
        ("$NaN", "Constant(NotANumber)", "$NaN"),
        ("$Infinity", "Constant(Infinity)", "$Infinity"),
        ("$-Infinity", "Constant(MinusInfinity)", "$-Infinity"),
        ("$-0", "Constant(MinusZero)", "$-0"),
    ] {
        assert!(rt; is_mark(&rt, text, shown, written)?, "{text}");
    }
    Ok(())
}

#[test]
fn refuses_what_spells_no_mark(rt: HostRuntime) {
    for text in [
        "$80000000",
        "$000000001",
        "$A",
        "$G",
        "$\u{e9}",
        "$:a",
        "$L",
        "$L1:a",
        "$l1",
        "$F",
        "$h1:",
        "$H1",
        "$Q",
        "$n",
        "$n-",
        "$n+1",
        "$n1.0",
        "$n170141183460469231731687303715884105728",
        "$n-170141183460469231731687303715884105729",
        "$undefinedx",
        "$Nan",
        "$-1",
        "$D",
        "$D2024-01-02",
        "$s",
    ] {
        assert!(rt;
            matches!(read_mark(rt.alloc(), text), Err(Marked::BadToken)),
            "{text}"
        );
    }
}
