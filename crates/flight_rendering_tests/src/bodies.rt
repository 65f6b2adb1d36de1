ghost use Rattle.std.specs.Prelude.{◌≡◌, [], IfOk};

use flight_bundle::read_bundle;
use flight_eval::{Attempt, Gave, attempt};
use flight_render::{Job, What};
use flight_script::nothing;
use flight_syntax::Seen;
use flight_value::{Atom, List, Memory, Shared, Tree};
use std::alloc::Global;
use std::test::Fail;

/// A job for the root, over sources that are settled or not.
fn root_job(alloc: Global, seen: Seen) -> Result<Job, Memory>
    ensures what { IfOk result (λ job. job.what ≡ What.Root) }
    ensures address { IfOk result (λ job. job.address ≡ []) }
    ensures seen { IfOk result (λ job. job.seen ≡ seen) }
{
    Ok(Job {
        task: 0,
        turn: 1,
        address: Shared::new(alloc, List::new(Vec::new(alloc)))?,
        what: What::Root,
        seen: Shared::new(alloc, seen)?,
        room: 0,
    })
}

/// What an attempt came to, in a few words.
fn shown(alloc: Global, attempt: &Attempt) -> Result<String, Memory> {
    match attempt {
        Attempt::Finished { bodies } => match bodies.as_slice().first() {
            Some(body) => gave(alloc, &body.gave, body.cost),
            None => Ok(String::from_str(alloc, "no body")?),
        },
        Attempt::Waits { source } => Ok(format!(in alloc; "waits for {source}")?),
        Attempt::OverFuel => Ok(String::from_str(alloc, "over the fuel")?),
    }
}

fn gave(alloc: Global, gave: &Gave, cost: u32) -> Result<String, Memory> {
    match gave {
        Gave::Tree(Tree::Atom(Atom::Whole(number))) => Ok(format!(in alloc; "gave {number}")?),
        Gave::Tree(_) => Ok(format!(in alloc; "made a value for {cost}")?),
        Gave::Threw(digest) => Ok(format!(in alloc; "threw {}", digest.as_str())?),
    }
}

/// What an attempt at the root of a bundle comes to while no source is settled.
fn comes_to(alloc: Global, bundle: &str, fuel: u32) -> Result<String, Memory> {
    let Ok(read) = read_bundle(alloc, bundle.as_bytes(), false) else {
        return Ok(String::from_str(alloc, "refused")?);
    };
    let ground = read.ground;
    let job = root_job(alloc, nothing(alloc, &ground.script)?)?;
    shown(alloc, &attempt(alloc, &ground, &job, fuel)?)
}

const SCRIPT: &str =
    "\n%%script\n{\"version\":1,\"sources\":{\"r\":{\"value\":1,\"nodes\":[]},\"s\":{\"value\":2,\"nodes\":[]}}}\n";

#[test]
fn attempts_the_root(rt: HostRuntime) -> Result<(), Fail> {
    for (program, fuel, words) in [
        ("server App() = (20 + 22);", 1_000, "gave 42"),
        ("server App() = <App/>;", 5, "made a value for 5"),
        ("server App() = <App/>;", 4, "over the fuel"),
        ("server App() = throw \"gone\";", 1_000, "threw gone"),
        ("server App() = (use s + use r);", 1_000, "waits for 1"),
    ] {
        let bundle = format!(in rt.alloc(); "{program}{SCRIPT}")?;
        let found = comes_to(rt.alloc(), bundle.as_str(), fuel)?;
        assert!(rt; found.as_str() == words, "{program}");
    }
    Ok(())
}
