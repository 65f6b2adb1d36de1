use crate::lexeme::Name;
use flight_value::Text;
use sqlite_items::Items;

/// A member of an object.
#[derive(Drop)]
#[cycle(json)]
pub struct Member {
    pub name: Name,
    pub value: Json,
}

/// A JSON value as it is written. Its numbers are whole.
#[derive(Drop)]
#[cycle(json)]
pub enum Json {
    Null,
    Boolean(bool),
    Number(i64),
    String(Text),
    Array(Items<Json>),
    Object(Items<Member>),
}
