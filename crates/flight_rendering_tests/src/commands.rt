ghost use Rattle.std.specs.Prelude.{◌≡◌, length};
ghost use Rattle.flight_render.specs.Valid.{IsValidGround};

use flight_base::{MemSink, MemSource};
use flight_bundle::read_bundle;
use flight_graph::canon_text;
use flight_render::Ground;
use flight_script::{nothing, scripted};
use flight_seq::{Cost, cost, plain};
use flight_syntax::Seen;
use flight_top::{Status, flight_alone};
use std::test::Fail;

/// The words of a command line.
fn words(rt: &HostRuntime, texts: &[&str]) -> Result<Vec<String>, Fail> {
    let mut words = Vec::new(rt.alloc());
    for text in texts {
        words.push(String::from_str(rt.alloc(), text)?)?;
    }
    Ok(words)
}

/// A source of these bytes, three a call, which fails at these calls.
fn source(rt: &HostRuntime, input: &str, fails: &[u32]) -> Result<MemSource, Fail> {
    let bytes = Vec::from_slice(rt.alloc(), input.as_bytes())?;
    Ok(MemSource::new(bytes, 3, Vec::from_slice(rt.alloc(), fails)?))
}

/// A sink that takes eight bytes a call, and fails at these calls.
fn sink(rt: &HostRuntime, fails: &[u32]) -> Result<MemSink, Fail> {
    Ok(MemSink::new(rt.alloc(), 8, Vec::from_slice(rt.alloc(), fails)?))
}

const ELEMENT: &str = "0:[\"$\",\"p\",null,{\"children\":\"hi\"}]\n";

const ELEMENT_TEXT: &str = "root #0\n#0 element \"p\" null #1\n#1 object {\"children\":\"hi\"}\n";

/// Whether `view` over this input gives this status and text.
fn views(rt: &HostRuntime, input: &str, status: Status, text: &str) -> Result<bool, Fail> {
    let view = words(rt, ["view"].as_slice())?;
    let mut source = source(rt, input, [].as_slice())?;
    let mut sink = sink(rt, [].as_slice())?;
    let told = flight_alone(rt.alloc(), view.as_slice(), &mut source, &mut sink);
    Ok(told.status == status && sink.held() == text.as_bytes())
}

/// Whether `run` over these bytes gives this status and text.
fn runs(rt: &HostRuntime, input: &[u8], status: Status, text: &str) -> Result<bool, Fail> {
    let run = words(rt, ["run"].as_slice())?;
    let bytes = Vec::from_slice(rt.alloc(), input)?;
    let mut source = MemSource::new(bytes, 4096, Vec::new(rt.alloc()));
    let mut sink = sink(rt, [].as_slice())?;
    let told = flight_alone(rt.alloc(), run.as_slice(), &mut source, &mut sink);
    Ok(told.status == status && sink.held() == text.as_bytes())
}

#[test]
fn views_streams(rt: HostRuntime) -> Result<(), Fail> {
    let two = "root #0\n#0 array [#1,#2]\n#1 object {}\n#2 object {}\n";
    assert!(rt; views(&rt, ELEMENT, Status::Done, ELEMENT_TEXT)?);
    assert!(rt; views(&rt, "0:\"$$5\"\n", Status::Done, "root \"$5\"\n")?);
    assert!(rt; views(&rt, "0:[{},{}]\n", Status::Done, two)?);
    assert!(rt; views(&rt, "", Status::Stream, "stream: no root\n")?);
    assert!(rt; views(&rt, "0:1.5\n", Status::Stream, "stream: row 1: number\n")?);
    assert!(rt; views(&rt, "0:{\"a\":1", Status::Stream, "stream: row 1: cut\n")?);
    assert!(rt;
        views(
            &rt,
            "0:1\n0:2\n",
            Status::Stream,
            "stream: row 2: twice 0\n"
        )?
    );
    assert!(rt; views(&rt, "0:\"$1f\"\n", Status::Stream, "stream: undefined 1f\n")?);
    assert!(rt; views(&rt, "1f:2\n0:\"$1f\"\n", Status::Done, "root 2\n")?);
    Ok(())
}

const BUNDLE: &str = "server App() = <p id=\"a\" n={[1,{x:null}]}/>;";

const BUNDLE_TEXT: &str =
    "root #0\n#0 element \"p\" null #1\n#1 object {\"id\":\"a\",\"n\":#2}\n#2 array [1,#3]\n#3 object {\"x\":null}\n";

#[test]
fn runs_one_component(rt: HostRuntime) -> Result<(), Fail> {
    let named = b"server App() = {b:\"$5\",a:[true,false]};".as_slice();
    let named_text = "root #0\n#0 object {\"a\":#1,\"b\":\"$5\"}\n#1 array [true,false]\n";
    assert!(rt; runs(&rt, BUNDLE.as_bytes(), Status::Done, BUNDLE_TEXT)?);
    assert!(rt; runs(&rt, named, Status::Done, named_text)?);
    assert!(rt;
        runs(
            &rt,
            b"server App() = null;".as_slice(),
            Status::Done,
            "root null\n"
        )?
    );
    Ok(())
}

/// Whether `run` over these bytes says that the bundle is not built.
fn not_built(rt: &HostRuntime, input: &[u8]) -> Result<bool, Fail> {
    runs(rt, input, Status::Bundle, "bundle: not built\n")
}

/// So many spaces.
fn spaces(rt: &HostRuntime, count: usize) -> Result<Vec<u8>, Fail> {
    let mut bytes = Vec::new(rt.alloc());
    for _ in 0..count {
        bytes.push(b' ')?;
    }
    Ok(bytes)
}

#[test]
fn refuses_bundles(rt: HostRuntime) -> Result<(), Fail> {
    let long = spaces(&rt, 65_537)?;
    let longer = spaces(&rt, 1_048_577)?;
    assert!(rt; not_built(&rt, &long)?);
    assert!(rt; runs(&rt, &longer, Status::Bundle, "bundle: too long\n")?);
    assert!(rt; not_built(&rt, b"server App() = \xff;".as_slice())?);
    assert!(rt; not_built(&rt, b"server App() = @;".as_slice())?);
    assert!(rt; not_built(&rt, b"server App() = use s;".as_slice())?);
    assert!(rt; not_built(&rt, b"server App() = {a:1,a:2};".as_slice())?);
    assert!(rt; not_built(&rt, b"server App() = <p key=\"k\"/>;".as_slice())?);
    Ok(())
}

/// A bundle of so many nested values.
fn nested(rt: &HostRuntime, values: usize) -> Result<Vec<u8>, Fail> {
    let mut bytes = Vec::from_slice(rt.alloc(), b"server App() = ".as_slice())?;
    for _ in 1..values {
        bytes.push(b'[')?;
    }
    bytes.push(b'1')?;
    for _ in 1..values {
        bytes.push(b']')?;
    }
    bytes.push(b';')?;
    Ok(bytes)
}

#[test]
fn nests_forty_values(rt: HostRuntime) -> Result<(), Fail> {
    let run = words(&rt, ["run"].as_slice())?;
    let mut source = MemSource::new(nested(&rt, 40)?, 4096, Vec::new(rt.alloc()));
    let mut sink = sink(&rt, [].as_slice())?;
    let told = flight_alone(rt.alloc(), run.as_slice(), &mut source, &mut sink);
    let more = nested(&rt, 41)?;
    assert!(rt; told.status == Status::Done);
    assert!(rt; not_built(&rt, &more)?);
    Ok(())
}

/// Whether `view` over an element gives this status and text where these calls fail.
fn fails(
    rt: &HostRuntime,
    source_fails: &[u32],
    sink_fails: &[u32],
    status: Status,
    text: &str,
) -> Result<bool, Fail> {
    let view = words(rt, ["view"].as_slice())?;
    let mut source = source(rt, ELEMENT, source_fails)?;
    let mut sink = sink(rt, sink_fails)?;
    let told = flight_alone(rt.alloc(), view.as_slice(), &mut source, &mut sink);
    Ok(told.status == status && sink.held() == text.as_bytes())
}

#[test]
fn tells_failing_calls(rt: HostRuntime) -> Result<(), Fail> {
    let none = [].as_slice();
    assert!(rt; fails(&rt, [0].as_slice(), none, Status::Read, "")?);
    assert!(rt; fails(&rt, [2].as_slice(), none, Status::Read, "")?);
    assert!(rt; fails(&rt, none, [0].as_slice(), Status::Write, "")?);
    assert!(rt; fails(&rt, none, [1].as_slice(), Status::Write, "root #0\n")?);
    assert!(rt; fails(&rt, none, [8].as_slice(), Status::Write, ELEMENT_TEXT)?);
    assert!(rt; fails(&rt, none, [9].as_slice(), Status::Done, ELEMENT_TEXT)?);
    Ok(())
}

/// Whether other words give the usage line.
fn refuses(rt: &HostRuntime, texts: &[&str]) -> Result<bool, Fail> {
    let words = words(rt, texts)?;
    let mut source = source(rt, ELEMENT, [0].as_slice())?;
    let mut sink = sink(rt, [].as_slice())?;
    let told = flight_alone(rt.alloc(), words.as_slice(), &mut source, &mut sink);
    Ok(told.status.code() == 1 && sink.held() == b"usage: flight COMMAND [OPTIONS]\n".as_slice())
}

#[test]
fn takes_cuts(rt: HostRuntime) -> Result<(), Fail> {
    for cut in [
        ["--cut=1"].as_slice(),
        ["--cut=0000000007"].as_slice(),
        ["--cut", "65536"].as_slice(),
    ] {
        let mut view = words(&rt, ["view"].as_slice())?;
        for text in cut {
            view.push(String::from_str(rt.alloc(), text)?)?;
        }
        let mut source = source(&rt, ELEMENT, [].as_slice())?;
        let mut sink = sink(&rt, [].as_slice())?;
        let told = flight_alone(rt.alloc(), view.as_slice(), &mut source, &mut sink);
        assert!(rt; told.status == Status::Done && sink.held() == ELEMENT_TEXT.as_bytes());
    }
    Ok(())
}

#[test]
fn refuses_other_words(rt: HostRuntime) -> Result<(), Fail> {
    assert!(rt; refuses(&rt, [].as_slice())?);
    assert!(rt; refuses(&rt, ["views"].as_slice())?);
    assert!(rt; refuses(&rt, ["view", "x"].as_slice())?);
    assert!(rt; refuses(&rt, ["--", "view"].as_slice())?);
    assert!(rt; refuses(&rt, ["view", "--cut"].as_slice())?);
    assert!(rt; refuses(&rt, ["view", "--cut", "0"].as_slice())?);
    assert!(rt; refuses(&rt, ["view", "--cut=65537"].as_slice())?);
    assert!(rt; refuses(&rt, ["view", "--cut=+7"].as_slice())?);
    assert!(rt; refuses(&rt, ["view", "--cut=00000000007"].as_slice())?);
    assert!(rt; refuses(&rt, ["--cut=7", "view"].as_slice())?);
    assert!(rt; refuses(&rt, ["view", "--cut", "7", "--cut=7"].as_slice())?);
    Ok(())
}

/// What `plain` with this fuel says of a bundle: its status and text.
fn renders(
    rt: &HostRuntime,
    fuel: &str,
    input: &str,
    status: Status,
    text: &str,
) -> Result<bool, Fail> {
    let plain = words(rt, ["plain", "--fuel", fuel].as_slice())?;
    let bytes = Vec::from_slice(rt.alloc(), input.as_bytes())?;
    let mut source = MemSource::new(bytes, 4096, Vec::new(rt.alloc()));
    let mut sink = sink(rt, [].as_slice())?;
    let told = flight_alone(rt.alloc(), plain.as_slice(), &mut source, &mut sink);
    Ok(told.status == status && sink.held() == text.as_bytes())
}

#[test]
fn renders_bundles(rt: HostRuntime) -> Result<(), Fail> {
    for (fuel, bundle, status, text) in [
        (
            "1000000",
            "server Left(o) = <b a={o} t={use u}/>;\nserver Right(o) = <i a={o} t={use v}/>;\nserver App() = let o = {k: 1} in [<Left o={o}/>, <Right o={o}/>];\n%%script\n{\"version\":1,\"sources\":{\"u\":{\"value\":\"x\",\"nodes\":[]},\"v\":{\"value\":\"y\",\"nodes\":[]}},\"settlers\":[[\"u\"],[\"v\"]]}\n",
            Status::Done,
            "root #0\n#0 array [#1,#4]\n#1 element \"b\" null #2\n#2 object {\"a\":#3,\"t\":\"x\"}\n#3 object {\"k\":1}\n#4 element \"i\" null #5\n#5 object {\"a\":#3,\"t\":\"y\"}\n",
        ),
        (
            "1000000",
            "server Part() = use s; server App() = [<Part/>, promise s];\n%%script\n{\"version\":1,\"sources\":{\"s\":{\"reject\":\"gone\"}},\"settlers\":[[\"s\"]]}\n",
            Status::Done,
            "root #0\n#0 array [failed \"gone\",#1]\n#1 promise failed \"gone\"\n",
        ),
        (
            "1000000",
            "server App() = use s;\n%%script\n{\"version\":1,\"sources\":{\"s\":{\"value\":5,\"nodes\":[]}}}\n",
            Status::Done,
            "root pending\n",
        ),
        (
            "1000000",
            "server App() = stream f;\n%%script\n{\"version\":1,\"sources\":{\"a\":{\"value\":1,\"nodes\":[]},\"b\":{\"reject\":\"no\"}},\"streams\":{\"f\":{\"kind\":\"iterable\",\"items\":[\"a\",\"b\"]}},\"settlers\":[[\"a\",\"b\"]]}\n",
            Status::Done,
            "root #0\n#0 iterable [1] failed \"no\"\n",
        ),
        (
            "1000",
            "server App() = <App/>;",
            Status::Done,
            "root failed \"depth\"\n",
        ),
        ("999", "server App() = <App/>;", Status::Fuel, "fuel\n"),
        (
            "1",
            "server App() = x;",
            Status::Bundle,
            "program: unknown \"x\" at 15\n",
        ),
        (
            "1",
            "server App() = 1;\n%%script\n{",
            Status::Bundle,
            "script: bad json\n",
        ),
    ] {
        assert!(rt; renders(&rt, fuel, bundle, status, text)?);
    }
    Ok(())
}

/// What rendering costs with these sources settled, and its text.
fn rendering(rt: &HostRuntime, ground: &Ground, seen: &Seen) -> Result<String, Fail>
    requires valid { IsValidGround ground.now }
    requires seen { length seen.now.settled ≡ length ground.now.script.sources }
{
    match cost(rt.alloc(), ground, seen, 1_000_000)? {
        Cost::Within { total } => {
            let graph = plain(rt.alloc(), ground, seen)?;
            let text = canon_text(rt.alloc(), &graph)?;
            Ok(format!(in rt.alloc(); "{total} {}", text.as_str())?)
        }
        Cost::Over => Ok(String::from_str(rt.alloc(), "over")?),
    }
}

#[test]
fn renders_with_sources_settled_or_not(rt: HostRuntime) -> Result<(), Fail> {
    let bytes =
        b"server App() = use s;\n%%script\n{\"version\":1,\"sources\":{\"s\":{\"value\":5,\"nodes\":[]}},\"settlers\":[[\"s\"]]}";
    match read_bundle(rt.alloc(), bytes.as_slice(), false) {
        Ok(bundle) => {
            let all = scripted(rt.alloc(), &bundle.ground.script)?;
            let none = nothing(rt.alloc(), &bundle.ground.script)?;
            let settled = rendering(&rt, &bundle.ground, &all)?;
            let waiting = rendering(&rt, &bundle.ground, &none)?;
            assert!(rt; settled.as_str() == "2 root 5\n");
            assert!(rt; waiting.as_str() == "0 root pending\n");
        }
        Err(_) => assert!(rt; false),
    }
    Ok(())
}
