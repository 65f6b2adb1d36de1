use flight_script::{ScriptFault, nothing, one_script, read_script, scripted};
use flight_syntax::{Declared, Expr, Program, Script};
use flight_value::{Atom, List, Text};
use sqlite_items::Items;
use std::alloc::Global;
use std::test::Fail;

/// A program with one server component.
fn program(alloc: Global, body: Expr) -> Result<Program, Fail> {
    let mut declared = Vec::new(alloc);
    declared.push(Declared::Server {
        name: Text::new(alloc, "App")?,
        params: List::new(Vec::new(alloc)),
        body,
    })?;
    Ok(Program {
        declared: List::new(declared),
    })
}

/// What a text is read as for a program, in a line.
fn line(alloc: Global, text: &str, program: &Program) -> Result<String, Fail> {
    Ok(match read_script(alloc, text.as_bytes(), program) {
        Ok(script) => shown(alloc, &script)?,
        Err(fault) => fault_line(alloc, fault)?,
    })
}

/// How many sources, streams and settlers there are, and how many of the sources are settled by these.
fn shown(alloc: Global, script: &Script) -> Result<String, Fail> {
    let sources = script.sources.as_slice().len();
    let streams = script.streams.as_slice().len();
    let settlers = script.settlers.as_slice().len();
    let some = scripted(alloc, script)?;
    let none = nothing(alloc, script)?;
    let settled = some.settled.as_slice().iter().filter(|b| **b).count();
    let before = none.settled.as_slice().iter().filter(|b| **b).count();
    Ok(format!(in alloc; "{sources} {streams} {settlers} {settled} {before}")?)
}

/// A fault, in a line.
fn fault_line(alloc: Global, fault: ScriptFault) -> Result<String, Fail> {
    Ok(match fault {
        ScriptFault::BadJson => String::from_str(alloc, "bad json")?,
        ScriptFault::BadShape { place } => format!(in alloc; "bad shape {}", place.as_str())?,
        ScriptFault::BadNode { source, node } => match node {
            Some(node) => format!(in alloc; "bad node {} {node}", source.as_str())?,
            None => format!(in alloc; "bad node {} value", source.as_str())?,
        },
        ScriptFault::Number { source } => format!(in alloc; "number {}", source.as_str())?,
        ScriptFault::UnknownSource { name } => format!(in alloc; "unknown {}", name.as_str())?,
        ScriptFault::SettledTwice { name } => format!(in alloc; "settled twice {}", name.as_str())?,
        ScriptFault::Memory => String::from_str(alloc, "memory")?,
    })
}

/// Whether a text is read so for a program that names nothing.
fn is_line(rt: &HostRuntime, text: &str, expected: &str) -> Result<bool, Fail> {
    let program = program(rt.alloc(), Expr::Atom(Atom::Null))?;
    let found = line(rt.alloc(), text, &program)?;
    Ok(found.as_str() == expected)
}

#[test]
fn asks_for_the_form(rt: HostRuntime) -> Result<(), Fail> {
    one_script();
    for (text, expected) in [
        ("{", "bad json"),
        (
            r#"{"version":1,"sources":{"a":{"value":1e999,"nodes":[]}}}"#,
            "bad json",
        ),
        ("[]", "bad shape script"),
        (r#"{"version":1}"#, "bad shape script"),
        (r#"{"sources":{}}"#, "bad shape script"),
        (r#"{"version":2,"sources":{}}"#, "bad shape script"),
        (r#"{"version":1.0,"sources":{}}"#, "bad shape script"),
        (r#"{"version":1,"sources":{},"more":1}"#, "bad shape script"),
        (r#"{"version":1,"sources":[]}"#, "bad shape script"),
        (
            r#"{"version":1,"sources":{"use":{"reject":"x"}}}"#,
            "bad shape script",
        ),
        (
            r#"{"version":1,"sources":{"":{"reject":"x"}}}"#,
            "bad shape script",
        ),
        (
            r#"{"version":1,"sources":{"a":1},"streams":[]}"#,
            "bad shape script",
        ),
        (r#"{"version":1,"sources":{}}"#, "0 0 0 0 0"),
        (
            r#"{"version":1,"sources":{"a":{"reject":"x"}},"settlers":[["a"],[]]}"#,
            "1 0 2 1 0",
        ),
    ] {
        assert!(rt; is_line(&rt, text, expected)?, "{text}");
    }
    Ok(())
}

/// Whether sources are read so.
fn is_read(rt: &HostRuntime, sources: &str, expected: &str) -> Result<bool, Fail> {
    let text = format!(in rt.alloc(); "{{\"version\":1,\"sources\":{sources}}}")?;
    is_line(rt, text.as_str(), expected)
}

#[test]
fn reads_sources(rt: HostRuntime) -> Result<(), Fail> {
    for (sources, expected) in [
        (r#"{"a":{}}"#, "bad shape sources.a"),
        (r#"{"a":{"value":1}}"#, "bad shape sources.a"),
        (r#"{"a":{"reject":1}}"#, "bad shape sources.a"),
        (r#"{"b":{},"a":{"value":1.5,"nodes":[]}}"#, "number a"),
        (r#"{"a":{"value":9007199254740992,"nodes":[]}}"#, "number a"),
        (r#"{"a":{"value":-0,"nodes":[]}}"#, "number a"),
        (r#"{"a":{"value":[1.5],"nodes":[]}}"#, "number a"),
        (r#"{"a":{"value":[1],"nodes":[1.5]}}"#, "bad node a value"),
        (r#"{"a":{"value":"$0","nodes":[]}}"#, "bad node a value"),
        (
            r#"{"a":{"value":"$0:x","nodes":[{"set":[]}]}}"#,
            "bad node a value",
        ),
        (
            r#"{"a":{"value":"$L0","nodes":[{"set":[]}]}}"#,
            "bad node a value",
        ),
        (r#"{"a":{"value":1,"nodes":[{"list":[1.5]}]}}"#, "number a"),
        (
            r#"{"a":{"value":1,"nodes":[{"set":[]},{"array":["$3"]},1.5]}}"#,
            "bad node a 1",
        ),
        (
            r#"{"a":{"value":1,"nodes":[{"map":[[1]]}]}}"#,
            "bad node a 0",
        ),
        (
            r#"{"a":{"value":-9007199254740991,"nodes":[]}}"#,
            "1 0 0 0 0",
        ),
        (
            r#"{"a":{"value":"$0","nodes":[{"object":{"n":"$1"}},{"array":["$0"]}]}}"#,
            "1 0 0 0 0",
        ),
        (
            r#"{"a":{"value":"$1","nodes":[{"map":[["$n5","$-0"]]},{"set":["$Sx","$$"]}]}}"#,
            "1 0 0 0 0",
        ),
    ] {
        assert!(rt; is_read(&rt, sources, expected)?, "{sources}");
    }
    Ok(())
}

/// Whether streams and settlers over the sources `a` and `b` are read so.
fn is_told(rt: &HostRuntime, rest: &str, expected: &str) -> Result<bool, Fail> {
    let text = format!(in rt.alloc();
        "{{\"version\":1,\"sources\":{{\"a\":{{\"reject\":\"x\"}},\"b\":{{\"reject\":\"y\"}}}},{rest}}}"
    )?;
    is_line(rt, text.as_str(), expected)
}

#[test]
fn reads_streams_and_settlers(rt: HostRuntime) -> Result<(), Fail> {
    for (rest, expected) in [
        (
            r#""streams":{"f":{"kind":"other","items":["c"]}}"#,
            "bad shape streams.f",
        ),
        (
            r#""streams":{"f":{"kind":"readable"}}"#,
            "bad shape streams.f",
        ),
        (
            r#""streams":{"f":{"kind":"readable","items":[1]}}"#,
            "bad shape streams.f",
        ),
        (
            r#""streams":{"f":{"kind":"readable","items":["a","c"],"final":"d"}},"settlers":1"#,
            "unknown c",
        ),
        (
            r#""streams":{"f":{"kind":"iterable","items":["a"],"final":"d"}}"#,
            "unknown d",
        ),
        (
            r#""streams":{"g":{},"f":{"kind":"iterable","items":["c"]}}"#,
            "unknown c",
        ),
        (r#""settlers":[["a","a"],[1]]"#, "bad shape settlers"),
        (r#""settlers":[["c","a","a"]]"#, "unknown c"),
        (r#""settlers":[["a"],["b","a","c"]]"#, "settled twice a"),
        (
            r#""streams":{"f":{"kind":"readable","items":[]},"g":{"kind":"iterable","items":["b","b"]},"h":{"kind":"iterator","items":["a"],"final":"b"}},"settlers":[["b"]]"#,
            "2 3 1 1 0",
        ),
    ] {
        assert!(rt; is_told(&rt, rest, expected)?, "{rest}");
    }
    Ok(())
}

#[test]
fn asks_for_the_names_of_the_program(rt: HostRuntime) -> Result<(), Fail> {
    let alloc = rt.alloc();
    let mut items = Vec::new(alloc);
    items.push(Expr::Source(Text::new(alloc, "a")?))?;
    items.push(Expr::Stream(Text::new(alloc, "f")?))?;
    items.push(Expr::Promise(Text::new(alloc, "b")?))?;
    let program = program(alloc, Expr::Array(Items::from_vec(items)))?;
    for (text, expected) in [
        (r#"{"version":1,"sources":{}}"#, "unknown a"),
        (
            r#"{"version":1,"sources":{"a":{"reject":"x"}}}"#,
            "unknown f",
        ),
        (
            r#"{"version":1,"sources":{"a":{"reject":"x"}},"settlers":[["a","a"]]}"#,
            "settled twice a",
        ),
        (
            r#"{"version":1,"sources":{"a":{"reject":"x"}},"streams":{"f":{"kind":"readable","items":[]}}}"#,
            "unknown b",
        ),
        (
            r#"{"version":1,"sources":{"a":{"reject":"x"},"b":{"reject":"x"}},"streams":{"f":{"kind":"readable","items":[]}}}"#,
            "2 1 0 0 0",
        ),
    ] {
        let found = line(alloc, text, &program)?;
        assert!(rt; found.as_str() == expected, "{text}");
    }
    Ok(())
}
