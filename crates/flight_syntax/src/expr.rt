use flight_value::{Atom, Text};
use sqlite_items::{Boxed, Items};

/// What stands between two expressions in parentheses.
#[derive(Clone, Copy)]
pub enum Op {
    Plus,
    Minus,
    Times,
    Equal,
    Less,
    And,
    Or,
}

/// What an element is.
#[derive(Drop)]
pub enum Tag {
    /// An element of the host, by its name.
    Host(Text),
    /// A server component, by the position of its declaration, from 0.
    Server(u32),
    /// A client component, by the position of its declaration, from 0.
    Client(u32),
    Suspense,
}

/// A property of an object, or an attribute of an element.
#[derive(Drop)]
#[cycle(expr)]
pub struct PropExpr {
    pub name: Text,
    pub value: Expr,
}

/// An entry of a map.
#[derive(Drop)]
#[cycle(expr)]
pub struct PairExpr {
    pub key: Expr,
    pub value: Expr,
}

/// A postfix.
#[derive(Drop)]
#[cycle(expr)]
pub enum Postfix {
    /// `.name`.
    Member(Text),
    /// `[at]`.
    Index(Expr),
}

/// An expression.
///
/// On each way back to an expression stand `Items` and `Boxed`, which contracts see as a list and as a
/// value; contracts see the whole as a term (`specs/Term.antt`). Texts do not lead back, so they are
/// `Text`.
#[derive(Drop)]
#[cycle(expr)]
pub enum Expr {
    /// `let name = value in then`.
    Let {
        name: Text,
        value: Boxed<Expr>,
        then: Boxed<Expr>,
    },
    /// `if test then yes else no`.
    If {
        test: Boxed<Expr>,
        yes: Boxed<Expr>,
        no: Boxed<Expr>,
    },
    /// `for name in over give give`.
    For {
        name: Text,
        over: Boxed<Expr>,
        give: Boxed<Expr>,
    },
    /// `throw value`.
    Throw(Boxed<Expr>),
    /// An expression with its postfixes, in the order written. A list, so that what goes over an expression
    /// goes down a level a nesting, and not a level a postfix.
    Postfixed {
        of: Boxed<Expr>,
        postfixes: Items<Postfix>,
    },
    /// A literal, with its sign.
    Atom(Atom),
    /// A variable, by how many variables are in scope around it: the parameters from 0, then each `let` and
    /// `for` from the outside.
    Variable(u32),
    /// A client component, by the position of its declaration, from 0.
    Client(u32),
    Array(Items<Expr>),
    Object(Items<PropExpr>),
    Map(Items<PairExpr>),
    Set(Items<Expr>),
    /// `use name`.
    Source(Text),
    /// `promise name`.
    Promise(Text),
    /// `stream name`.
    Stream(Text),
    /// An action, by the position of its declaration, from 0, and the arguments behind `with`.
    Action {
        action: u32,
        bound: Option<Items<Expr>>,
    },
    /// An expression in parentheses.
    Paren(Boxed<Expr>),
    /// An operator between two expressions, in parentheses.
    Binary {
        op: Op,
        left: Boxed<Expr>,
        right: Boxed<Expr>,
    },
    /// An element, with every attribute in the order written, `key` among them.
    Element {
        tag: Tag,
        attrs: Items<PropExpr>,
        children: Items<Expr>,
    },
}
