use flight_syntax::{Lexed, Token, TokenKind, tokens};
use std::alloc::Global;
use std::process::Abort;
use std::test::Fail;

/// The tokens of a text, each as its kind and its place, or its fault.
fn listing(rt: &impl Abort, alloc: Global, text: &str) -> Result<String, Fail> {
    assert!(rt; text.len() <= 1_048_576);
    match tokens(alloc, text.as_bytes()) {
        Ok(tokens) => {
            let mut listing = String::new(alloc);
            for token in tokens.as_slice() {
                let kind = token.kind;
                let Token { from, to, .. } = *token;
                listing.push_str(format!(in alloc; "{kind:?} {from}-{to} ")?.as_str())?;
            }
            Ok(listing)
        }
        Err(Lexed::Fault(fault)) => {
            let kind = fault.kind;
            let at = fault.at;
            Ok(format!(in alloc; "{kind:?} at {at}")?)
        }
        Err(Lexed::Memory) => Ok(String::from_str(alloc, "memory")?),
    }
}

#[test]
fn reads_tokens(rt: HostRuntime) -> Result<(), Fail> {
    for (text, expected) in [
        ("", ""),
        ("a_1 Bc", "Name 0-3 Name 4-6 "),
        ("===", "Mark 0-2 Mark 2-3 "),
        ("<a/>", "Mark 0-1 Name 1-2 Mark 2-4 "),
        ("</a", "Mark 0-2 Name 2-3 "),
        ("<///x", "Mark 0-2 "),
        ("a // note", "Name 0-1 "),
        ("a // note\nb", "Name 0-1 Name 10-11 "),
        ("0 0n 9007199254740991", "Number 0-1 Big 2-4 Number 5-21 "),
        ("170141183460469231731687303715884105727n", "Big 0-40 "),
        ("\"\\u0041\"\"\"", "Text 0-8 Text 8-10 "),
        ("<//x", "BadByte at 2"),
        ("9007199254740992", "BadNumber at 0"),
        ("170141183460469231731687303715884105728n", "BadNumber at 0"),
        ("a 00", "BadNumber at 2"),
        ("1a", "BadNumber at 0"),
        ("server App 5nn ()", "BadNumber at 11"),
        ("\"\\ud800\"", "BadText at 0"),
        ("x \"\\\"", "BadText at 2"),
        ("\"a\nb\"", "BadText at 0"),
        ("\"\u{e9}\" \u{e9}", "BadByte at 5"),
        ("a && b & c", "BadByte at 7"),
        ("a / b", "BadByte at 2"),
    ] {
        let found = listing(&rt, rt.alloc(), text)?;
        assert!(rt; found.as_str() == expected, "{text}: {found}");
    }
    Ok(())
}

#[test]
fn gives_what_stands_at_a_token(rt: HostRuntime) -> Result<(), Fail> {
    let text = "let 7 12n \"\\u0041\" a App".as_bytes();
    assert!(rt; text.len() <= 1_048_576);
    let tokens = tokens(rt.alloc(), text)?;
    assert!(rt; tokens.len() == 6);
    for token in tokens.as_slice() {
        match token.kind {
            TokenKind::Name => {
                let name = token.name(rt.alloc(), text)?;
                assert!(rt; token.is(text, name.as_str()));
                assert!(rt; token.is_lower(text) == (name.as_str() == "a"));
                assert!(rt; token.is_upper(text) == (name.as_str() == "App"));
            }
            TokenKind::Number => assert!(rt; token.number(text) == 7),
            TokenKind::Big => assert!(rt; token.big(text) == 12),
            TokenKind::Text => {
                assert!(rt; token.bytes(text) == b"\"\\u0041\"".as_slice());
                assert!(rt; token.text(rt.alloc(), text)?.as_str() == "A");
            }
            TokenKind::Mark => assert!(rt; false),
        }
    }
    Ok(())
}
