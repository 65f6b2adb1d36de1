use flight_value::Text;

/// A field of a form: a part, by its number, and its JSON.
#[derive(Drop)]
pub struct Field {
    /// Below 2^31.
    pub name: u32,
    pub value: Text,
}
