use crate::expr::Expr;
use flight_value::{List, Text};

/// A program. A component or an action is named by the position of its declaration, from 0.
#[derive(Drop)]
pub struct Program {
    pub declared: List<Declared>,
}

/// A declaration.
#[derive(Drop)]
pub enum Declared {
    /// A server component.
    Server {
        name: Text,
        params: List<Text>,
        body: Expr,
    },
    /// A client component, with what a bundler says of it, as compact JSON.
    Client {
        name: Text,
        import: Text,
    },
    /// An action.
    Action {
        name: Text,
        params: List<Text>,
        body: Expr,
    },
}
