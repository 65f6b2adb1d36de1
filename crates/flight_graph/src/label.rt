use flight_value::Atom;

/// What kind of node it is.
#[derive(Clone, Copy, Debug, PartialEq, Eq)]
pub enum Kind {
    Array,
    Object,
    Map,
    Set,
    Element,
    Promise,
    Stream,
    Action,
}

/// What stands in a slot: an atom, or a node by its kind and a mark, which is the same wherever the node stands.
#[derive(Clone, Copy)]
pub enum Label<'a> {
    Atom(&'a Atom),
    Node { kind: Kind, mark: u32 },
}
