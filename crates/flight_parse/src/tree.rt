use crate::lexeme::Name;
use flight_syntax::Op;
use flight_value::Atom;
use sqlite_items::{Boxed, Items};

/// A property of an object, or an attribute of an element.
#[derive(Drop)]
#[cycle(tree)]
pub struct Property {
    pub name: Name,
    pub value: Tree,
}

/// An entry of a map.
#[derive(Drop)]
#[cycle(tree)]
pub struct Entry {
    pub key: Boxed<Tree>,
    pub value: Tree,
}

/// A postfix.
#[derive(Drop)]
#[cycle(tree)]
pub enum Post {
    /// `.name`.
    Named(Name),
    /// `[at]`.
    Indexed(Tree),
}

/// An expression as it is written, with names and where they stand.
///
/// On each way back to an expression stand `Items` and `Boxed`, which contracts see as a list and as a
/// value; contracts see the whole as plain data (`specs/Code.antt`).
#[derive(Drop)]
#[cycle(tree)]
pub enum Tree {
    Let {
        name: Name,
        value: Boxed<Tree>,
        then: Boxed<Tree>,
    },
    If {
        test: Boxed<Tree>,
        yes: Boxed<Tree>,
        no: Boxed<Tree>,
    },
    For {
        name: Name,
        over: Boxed<Tree>,
        give: Boxed<Tree>,
    },
    Throw(Boxed<Tree>),
    /// An expression with its postfixes, in the order written.
    Postfixed {
        of: Boxed<Tree>,
        posts: Items<Post>,
    },
    Atom(Atom),
    Variable(Name),
    Client(Name),
    Array(Items<Tree>),
    Object(Items<Property>),
    Map(Items<Entry>),
    Set(Items<Tree>),
    Source(Name),
    Promise(Name),
    Stream(Name),
    Action {
        name: Name,
        bound: Option<Items<Tree>>,
    },
    Paren(Boxed<Tree>),
    Binary {
        op: Op,
        left: Boxed<Tree>,
        right: Boxed<Tree>,
    },
    Element {
        tag: Name,
        attributes: Items<Property>,
        children: Items<Tree>,
    },
}
