ghost use Rattle.std.specs.Prelude.{◌≡◌, ◌||◌, IfOk};
ghost use Rattle.flight_syntax.specs.Faults as faults;
ghost use Rattle.flight_syntax.specs.Faults.{is_named};
ghost use Rattle.flight_parse.specs.Code.{placed};
ghost use Rattle.flight_resolve.specs.Names.{IsKnown, IsFirst, all_of, scope_of};

use crate::body::{Body, variable};
use crate::name_fault::NameFault;
use crate::tables::find;
use flight_parse::Name;
use flight_syntax::is_lower;
use flight_value::Memory;

/// A name that is no variable in scope.
pub fn unknown_variable(
    body: &Body<'_>,
    locals: &[&Name],
    name: &Name,
) -> Result<Option<NameFault>, Memory>
    requires { IsKnown body.now }
    ensures { IfOk result (λ fault. IsFirst fault (faults.unless_known (is_named name.now.bytes (scope_of body.now locals.now)) (placed name.now))) }
{
    let known = is_variable(body, locals, name)?;
    unless_known(known, name)
}

/// A name that is no client component.
pub fn unknown_client(body: &Body<'_>, name: &Name) -> Result<Option<NameFault>, Memory>
    requires { IsKnown body.now }
    ensures { IfOk result (λ fault. IsFirst fault (faults.unless_known (is_named name.now.bytes (faults.clients (all_of body.now))) (placed name.now))) }
{
    unless_known(is_client(body, name), name)
}

/// A name that is no action.
pub fn unknown_action(body: &Body<'_>, name: &Name) -> Result<Option<NameFault>, Memory>
    requires { IsKnown body.now }
    ensures { IfOk result (λ fault. IsFirst fault (faults.unless_known (is_named name.now.bytes (faults.actions (all_of body.now))) (placed name.now))) }
{
    unless_known(is_action(body, name), name)
}

/// A tag that stands for nothing.
pub fn unknown_tag(body: &Body<'_>, tag: &Name) -> Result<Option<NameFault>, Memory>
    requires { IsKnown body.now }
    ensures { IfOk result (λ fault. IsFirst fault (faults.unless_known (faults.is_tag (all_of body.now) tag.now.bytes) (placed tag.now))) }
{
    unless_known(is_tag(body, tag), tag)
}

/// The fault of a name, unless it is known.
fn unless_known(known: bool, name: &Name) -> Result<Option<NameFault>, Memory>
    ensures { IfOk result (λ fault. IsFirst fault (faults.unless_known known (placed name.now))) }
{
    if known {
        Ok(None)
    } else {
        Ok(Some(NameFault::Unknown(name.copy()?)))
    }
}

/// Whether a variable in scope has the name.
fn is_variable(body: &Body<'_>, locals: &[&Name], name: &Name) -> Result<bool, Memory>
    requires { IsKnown body.now }
    ensures { IfOk result (λ known. known ≡ is_named name.now.bytes (scope_of body.now locals.now)) }
{
    let number = variable(body, locals, &name.bytes)?;
    Ok(number.is_some())
}

/// Whether a server component has the name.
pub fn is_server(body: &Body<'_>, name: &Name) -> bool
    requires { IsKnown body.now }
    ensures { result ≡ is_named name.now.bytes (faults.servers (all_of body.now)) }
{
    find(&body.tables.servers, &name.bytes).is_some()
}

/// Whether a client component has the name.
fn is_client(body: &Body<'_>, name: &Name) -> bool
    requires { IsKnown body.now }
    ensures { result ≡ is_named name.now.bytes (faults.clients (all_of body.now)) }
{
    find(&body.tables.clients, &name.bytes).is_some()
}

/// Whether an action has the name.
fn is_action(body: &Body<'_>, name: &Name) -> bool
    requires { IsKnown body.now }
    ensures { result ≡ is_named name.now.bytes (faults.actions (all_of body.now)) }
{
    find(&body.tables.actions, &name.bytes).is_some()
}

/// Whether a tag stands for an element of the host, a component or `Suspense`.
fn is_tag(body: &Body<'_>, tag: &Name) -> bool
    requires { IsKnown body.now }
    ensures { result ≡ faults.is_tag (all_of body.now) tag.now.bytes }
{
    is_lower(tag.bytes.as_str().as_bytes())
        || is_component(body, tag)
        || tag.bytes.as_str() == "Suspense"
}

/// Whether a component has the name.
fn is_component(body: &Body<'_>, tag: &Name) -> bool
    requires { IsKnown body.now }
    ensures { result ≡ is_named tag.now.bytes (faults.components (all_of body.now)) }
{
    either(is_server(body, tag), is_client(body, tag))
}

/// Whether one of two holds.
fn either(one: bool, other: bool) -> bool
    ensures { result ≡ one || other }
{
    one || other
}
