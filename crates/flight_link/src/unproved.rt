use flight_value::Memory;

/// What a branch answers that is believed impossible, while no clause says so. Only this crate has such branches: they go
/// with the store of places, and nothing new may call this.
pub fn unproved() -> Memory {
    Memory::past_limit()
}
