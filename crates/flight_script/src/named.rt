ghost use Rattle.std.specs.Prelude.{◌≡◌, ◌∷◌, [], true, map, OnOk, IfErr};
ghost use Rattle.std.specs.List.{flat_map};
ghost use Rattle.flight_value.specs.Graph.{Ascend};
ghost use Rattle.flight_syntax.specs.Term.{term, prop, pair, post, terms_of, props_of, pairs_of};
ghost use Rattle.flight_script.specs.Json.{is_among};
ghost use Rattle.flight_script.specs.Program.{names_in, names_in_terms, names_in_props, names_in_pairs, names_in_post, names_in_posts, names_of, named_tests};
ghost use Rattle.flight_script.specs.Tests.{holds, AllPass, Refuses};
ghost use Rattle.flight_script.specs.declared.fault.ScriptFault.TheVariants as fault;

use crate::fault::ScriptFault;
use crate::names::number_of;
use flight_syntax::{Declared, Expr, PairExpr, Postfix, PropExpr};
use std::alloc::Global;

/// Asks that declarations name only these sources and streams, in order of their text. The names ascend.
pub fn check_program(
    alloc: Global,
    declared: &[Declared],
    sources: &[&str],
    streams: &[&str],
) -> Result<(), ScriptFault>
    requires sources { Ascend (map (λ n. n.now) sources.now) }
    requires streams { Ascend (map (λ n. n.now) streams.now) }
    ensures pass { OnOk result (AllPass (named_tests (map (λ n. n.now) sources.now) (map (λ n. n.now) streams.now) (flat_map names_of declared.now))) }
    ensures err { IfErr result (Refuses (named_tests (map (λ n. n.now) sources.now) (map (λ n. n.now) streams.now) (flat_map names_of declared.now))) }
{
    for one in declared {
        check_declared(alloc, one, sources, streams)?;
    }
    Ok(())
}

/// Asks it of a declaration.
fn check_declared(
    alloc: Global,
    declared: &Declared,
    sources: &[&str],
    streams: &[&str],
) -> Result<(), ScriptFault>
    requires sources { Ascend (map (λ n. n.now) sources.now) }
    requires streams { Ascend (map (λ n. n.now) streams.now) }
    ensures pass { OnOk result (AllPass (named_tests (map (λ n. n.now) sources.now) (map (λ n. n.now) streams.now) (names_of declared.now))) }
    ensures err { IfErr result (Refuses (named_tests (map (λ n. n.now) sources.now) (map (λ n. n.now) streams.now) (names_of declared.now))) }
{
    match declared {
        Declared::Server { body, .. } => check(alloc, body, sources, streams),
        Declared::Client { .. } => Ok(()),
        Declared::Action { body, .. } => check(alloc, body, sources, streams),
    }
}

/// Asks it of an expression.
#[cycle(check)]
#[tactic(auto, using(crate::proofs::Naming::both_pass, crate::proofs::Naming::first_refuses, crate::proofs::Naming::second_refuses))]
fn check(alloc: Global, expr: &Expr, sources: &[&str], streams: &[&str]) -> Result<(), ScriptFault>
    requires sources { Ascend (map (λ n. n.now) sources.now) }
    requires streams { Ascend (map (λ n. n.now) streams.now) }
    ensures pass { OnOk result (AllPass (named_tests (map (λ n. n.now) sources.now) (map (λ n. n.now) streams.now) (names_in (term expr.now)))) }
    ensures err { IfErr result (Refuses (named_tests (map (λ n. n.now) sources.now) (map (λ n. n.now) streams.now) (names_in (term expr.now)))) }
{
    match expr {
        Expr::Let { value, then, .. } => {
            check(alloc, value.get(), sources, streams)?;
            check(alloc, then.get(), sources, streams)
        }
        Expr::If { test, yes, no } => {
            check(alloc, test.get(), sources, streams)?;
            check(alloc, yes.get(), sources, streams)?;
            check(alloc, no.get(), sources, streams)
        }
        Expr::For { over, give, .. } => {
            check(alloc, over.get(), sources, streams)?;
            check(alloc, give.get(), sources, streams)
        }
        Expr::Throw(value) => check(alloc, value.get(), sources, streams),
        Expr::Postfixed { of, postfixes } => {
            check(alloc, of.get(), sources, streams)?;
            check_postfixes(alloc, postfixes.as_slice(), sources, streams)
        }
        Expr::Atom(_) | Expr::Variable(_) | Expr::Client(_) => Ok(()),
        Expr::Array(items) => check_items(alloc, items.as_slice(), sources, streams),
        Expr::Object(props) => check_props(alloc, props.as_slice(), sources, streams),
        Expr::Map(pairs) => check_pairs(alloc, pairs.as_slice(), sources, streams),
        Expr::Set(items) => check_items(alloc, items.as_slice(), sources, streams),
        Expr::Source(name) => check_name(alloc, name.as_str(), sources),
        Expr::Promise(name) => check_name(alloc, name.as_str(), sources),
        Expr::Stream(name) => check_name(alloc, name.as_str(), streams),
        Expr::Action { bound, .. } => match bound {
            Some(items) => check_items(alloc, items.as_slice(), sources, streams),
            None => Ok(()),
        },
        Expr::Paren(inside) => check(alloc, inside.get(), sources, streams),
        Expr::Binary { left, right, .. } => {
            check(alloc, left.get(), sources, streams)?;
            check(alloc, right.get(), sources, streams)
        }
        Expr::Element {
            attrs,
            children,
            ..
        } => {
            check_props(alloc, attrs.as_slice(), sources, streams)?;
            check_items(alloc, children.as_slice(), sources, streams)
        }
    }
}

/// Asks it of expressions.
#[cycle(check)]
fn check_items(
    alloc: Global,
    items: &[Expr],
    sources: &[&str],
    streams: &[&str],
) -> Result<(), ScriptFault>
    requires sources { Ascend (map (λ n. n.now) sources.now) }
    requires streams { Ascend (map (λ n. n.now) streams.now) }
    ensures pass { OnOk result (AllPass (named_tests (map (λ n. n.now) sources.now) (map (λ n. n.now) streams.now) (names_in_terms (terms_of (map term items.now))))) }
    ensures err { IfErr result (Refuses (named_tests (map (λ n. n.now) sources.now) (map (λ n. n.now) streams.now) (names_in_terms (terms_of (map term items.now))))) }
{
    for item in items {
        check(alloc, item, sources, streams)?;
    }
    Ok(())
}

/// Asks it of postfixes.
#[cycle(check)]
fn check_postfixes(
    alloc: Global,
    postfixes: &[Postfix],
    sources: &[&str],
    streams: &[&str],
) -> Result<(), ScriptFault>
    requires sources { Ascend (map (λ n. n.now) sources.now) }
    requires streams { Ascend (map (λ n. n.now) streams.now) }
    ensures pass { OnOk result (AllPass (named_tests (map (λ n. n.now) sources.now) (map (λ n. n.now) streams.now) (names_in_posts (map post postfixes.now)))) }
    ensures err { IfErr result (Refuses (named_tests (map (λ n. n.now) sources.now) (map (λ n. n.now) streams.now) (names_in_posts (map post postfixes.now)))) }
{
    for postfix in postfixes {
        check_postfix(alloc, postfix, sources, streams)?;
    }
    Ok(())
}

/// Asks it of a postfix.
#[cycle(check)]
fn check_postfix(
    alloc: Global,
    postfix: &Postfix,
    sources: &[&str],
    streams: &[&str],
) -> Result<(), ScriptFault>
    requires sources { Ascend (map (λ n. n.now) sources.now) }
    requires streams { Ascend (map (λ n. n.now) streams.now) }
    ensures pass { OnOk result (AllPass (named_tests (map (λ n. n.now) sources.now) (map (λ n. n.now) streams.now) (names_in_post (post postfix.now)))) }
    ensures err { IfErr result (Refuses (named_tests (map (λ n. n.now) sources.now) (map (λ n. n.now) streams.now) (names_in_post (post postfix.now)))) }
{
    match postfix {
        Postfix::Member(_) => Ok(()),
        Postfix::Index(at) => check(alloc, at, sources, streams),
    }
}

/// Asks it of properties.
#[cycle(check)]
fn check_props(
    alloc: Global,
    props: &[PropExpr],
    sources: &[&str],
    streams: &[&str],
) -> Result<(), ScriptFault>
    requires sources { Ascend (map (λ n. n.now) sources.now) }
    requires streams { Ascend (map (λ n. n.now) streams.now) }
    ensures pass { OnOk result (AllPass (named_tests (map (λ n. n.now) sources.now) (map (λ n. n.now) streams.now) (names_in_props (props_of (map prop props.now))))) }
    ensures err { IfErr result (Refuses (named_tests (map (λ n. n.now) sources.now) (map (λ n. n.now) streams.now) (names_in_props (props_of (map prop props.now))))) }
{
    for prop in props {
        check(alloc, &prop.value, sources, streams)?;
    }
    Ok(())
}

/// Asks it of entries.
#[cycle(check)]
fn check_pairs(
    alloc: Global,
    pairs: &[PairExpr],
    sources: &[&str],
    streams: &[&str],
) -> Result<(), ScriptFault>
    requires sources { Ascend (map (λ n. n.now) sources.now) }
    requires streams { Ascend (map (λ n. n.now) streams.now) }
    ensures pass { OnOk result (AllPass (named_tests (map (λ n. n.now) sources.now) (map (λ n. n.now) streams.now) (names_in_pairs (pairs_of (map pair pairs.now))))) }
    ensures err { IfErr result (Refuses (named_tests (map (λ n. n.now) sources.now) (map (λ n. n.now) streams.now) (names_in_pairs (pairs_of (map pair pairs.now))))) }
{
    for pair in pairs {
        check(alloc, &pair.key, sources, streams)?;
        check(alloc, &pair.value, sources, streams)?;
    }
    Ok(())
}

/// Asks that a name is one of these.
fn check_name(alloc: Global, name: &str, names: &[&str]) -> Result<(), ScriptFault>
    requires { Ascend (map (λ n. n.now) names.now) }
    ensures pass { OnOk result (AllPass (holds (is_among (map (λ n. n.now) names.now) name.now) (fault.UnknownSource name.now) ∷ [])) }
    ensures err { IfErr result (Refuses (holds (is_among (map (λ n. n.now) names.now) name.now) (fault.UnknownSource name.now) ∷ [])) }
{
    let _number = number_of(alloc, names, name)?;
    Ok(())
}
