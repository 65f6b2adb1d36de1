ghost use Rattle.std.specs.Prelude.{◌≡◌, ◌+◌, ◌<◌, ◌≤◌, ◌++◌, ◌∷◌, [], vec_len, vec_capacity};

/// Puts an item last, where there is room.
pub fn put_last<T: Drop>(list: &mut Vec<T>, item: T)
    requires { vec_len list.old < vec_capacity list.old }
    ensures { list.new.items ≡ list.old.items ++ item ∷ [] }
{
    list.push_reserved(item);
}

/// Puts items last, where there is room.
pub fn append_last<T: Drop>(list: &mut Vec<T>, mut items: Vec<T>)
    requires { vec_len list.old + vec_len items ≤ vec_capacity list.old }
    ensures { list.new.items ≡ list.old.items ++ items.items }
{
    if !items.is_empty() {
        let _ = list.append(&mut items);
    }
}
