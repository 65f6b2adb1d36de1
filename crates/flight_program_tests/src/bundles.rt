use flight_bundle::{Bundle, BundleFault, one_bundle, read_bundle};
use flight_resolve::ParseFault;
use flight_script::ScriptFault;
use std::alloc::Global;
use std::test::Fail;

/// What bytes are read as, in a line.
fn line(alloc: Global, bytes: &[u8], reply: bool) -> Result<String, Fail> {
    match read_bundle(alloc, bytes, reply) {
        Ok(bundle) => shown(alloc, &bundle),
        Err(fault) => fault_line(alloc, fault),
    }
}

/// How many declarations, sources and bytes of a reply there are.
fn shown(alloc: Global, bundle: &Bundle) -> Result<String, Fail> {
    let declared = bundle.ground.program.declared.as_slice().len();
    let sources = bundle.ground.script.sources.as_slice().len();
    let reply = match &bundle.reply {
        Some(reply) => reply.as_slice().len(),
        None => 0,
    };
    Ok(format!(in alloc; "{declared} {sources} {reply}")?)
}

/// A fault, in a line.
fn fault_line(alloc: Global, fault: BundleFault) -> Result<String, Fail> {
    match fault {
        BundleFault::TooLong => Ok(String::from_str(alloc, "too long")?),
        BundleFault::NotUtf8 { at } => Ok(format!(in alloc; "not UTF-8 {at}")?),
        BundleFault::ReplyWanted => Ok(String::from_str(alloc, "reply wanted")?),
        BundleFault::ReplyNotWanted => Ok(String::from_str(alloc, "reply not wanted")?),
        BundleFault::Program(fault) => program_line(alloc, fault),
        BundleFault::Script(fault) => script_line(alloc, fault),
        BundleFault::Memory => Ok(String::from_str(alloc, "memory")?),
    }
}

fn program_line(alloc: Global, fault: ParseFault) -> Result<String, Fail> {
    match fault {
        ParseFault::Unexpected { at } => Ok(format!(in alloc; "unexpected {at}")?),
        ParseFault::Unknown { at, .. } => Ok(format!(in alloc; "unknown {at}")?),
        _ => Ok(String::from_str(alloc, "program")?),
    }
}

fn script_line(alloc: Global, fault: ScriptFault) -> Result<String, Fail> {
    match fault {
        ScriptFault::BadJson => Ok(String::from_str(alloc, "bad json")?),
        _ => Ok(String::from_str(alloc, "script")?),
    }
}

/// Whether bytes are read so.
fn reads_as(alloc: Global, bytes: &[u8], reply: bool, expected: &str) -> Result<bool, Fail> {
    let found = line(alloc, bytes, reply)?;
    Ok(found.as_str() == expected)
}

#[test]
fn reads_bundles(rt: HostRuntime) -> Result<(), Fail> {
    one_bundle();
    for (text, expected) in [
        ("server App() = 1;", "1 0 0"),
        (
            "server App() = use s;\n%%script\n{\"version\":1,\"sources\":{\"s\":{\"reject\":\"no\"}}}\n",
            "1 1 0",
        ),
        // the order of the faults
        (
            "server App() = x;\n%%script\n{\n%%reply\n",
            "reply not wanted",
        ),
        ("server App() = x;\n%%script\n{\n", "unknown 15"),
        ("server App() = 1;\n%%script\n{\n", "bad json"),
        // a mark is a line of its own, and the script's comes first
        ("server App() = 1;\n%%reply\n0=1", "program"),
        ("server App() = 1;\n %%script\n{", "program"),
        ("server App() =\n%%script\n{", "unexpected 15"),
    ] {
        assert!(rt; reads_as(rt.alloc(), text.as_bytes(), false, expected)?);
    }
    let bytes = b"server App() = \xff;\n%%script\n{\n%%reply\n".as_slice();
    assert!(rt; reads_as(rt.alloc(), bytes, false, "not UTF-8 15")?);
    Ok(())
}

#[test]
fn reads_replies(rt: HostRuntime) -> Result<(), Fail> {
    for (text, expected) in [
        (
            "server App() = 1;\n%%script\n{\"version\":1,\"sources\":{}}\n%%reply\n0=1\n\n",
            "1 0 4",
        ),
        (
            "server App() = 1;\n%%script\n{\"version\":1,\"sources\":{}}\n%%reply",
            "1 0 0",
        ),
        ("server App() = x;\n%%script\n{\n", "reply wanted"),
    ] {
        assert!(rt; reads_as(rt.alloc(), text.as_bytes(), true, expected)?);
    }
    Ok(())
}

#[test]
fn refuses_long_ones(rt: HostRuntime) -> Result<(), Fail> {
    let mut bytes = Vec::from_slice(rt.alloc(), b"server App() = 1;")?;
    bytes.resize(1_048_576, b' ')?;
    assert!(rt; reads_as(rt.alloc(), &bytes, false, "1 0 0")?);
    bytes.push(b'\xff')?;
    assert!(rt; reads_as(rt.alloc(), &bytes, false, "too long")?);
    Ok(())
}
