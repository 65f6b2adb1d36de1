use flight_print::print_program;
use flight_resolve::parse;
use std::alloc::Global;
use std::test::Fail;

/// The longest text that is read.
const MOST: usize = 1_048_576;

/// A program's text as it is printed, or nothing where the text is no program.
fn printed(alloc: Global, text: &str) -> Result<String, Fail> {
    let mut out = String::new(alloc);
    if text.len() > MOST {
        return Ok(out);
    }
    if let Ok(program) = parse(alloc, text.as_bytes()) {
        let text = print_program(alloc, &program)?;
        out.push_str(text.as_str())?;
    }
    Ok(out)
}

/// What is printed is read as a program again, and printed the same.
#[test]
fn prints_programs(rt: HostRuntime) -> Result<(), Fail> {
    let alloc = rt.alloc();
    for (text, expected) in [
        (
            "server Left(o) = <b a={o} t={use u}/>;\nserver Right(o) = <i a={o} t={use v}/>;\nserver App() = let o = {k: 1} in [<Left o={o}/>, <Right o={o}/>];\n",
            "server Left ( o ) = < b a= { o } t= { use u } /> ;\nserver Right ( o ) = < i a= { o } t= { use v } /> ;\nserver App ( ) = let o = { \"k\" : 1 } in [ < Left o= { o } /> , < Right o= { o } /> ] ;\n",
        ),
        (
            "client C = {\"b\":[1,-2],\"a\":null};action f(x) = (x.y[0] + -3n);server App() = <p d-x=\"q\\\"\">\"t\"<C/>{1}</p>;",
            "client C = {\"a\":null,\"b\":[1,-2]};\naction f ( x ) = ( x . y [ 0 ] + - 3n ) ;\nserver App ( ) = < p d-x= \"q\\\"\" > \"t\" < C /> { 1 } </ p > ;\n",
        ),
    ] {
        let once = printed(alloc, text)?;
        assert!(rt; once.as_str() == expected);
        let twice = printed(alloc, once.as_str())?;
        assert!(rt; twice.as_str() == expected);
    }
    Ok(())
}
