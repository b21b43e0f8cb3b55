//! Items with a key each, which stand by rising key.
ghost use Rattle.std.specs.Prelude.{◌≡◌, ℕ, ◌+◌, ◌<◌, ◌≤◌, AllPairs, Some, IsSome, get_or, length};
ghost use Rattle.std.specs.Prelude.{option_map, vec_len, vec_capacity};
ghost use Rattle.std.specs.List.{position_or_len};
ghost use Rattle.ea_model.specs.Keyed.{has_key, is_after, item_at, entered, without, IsBelow};

/// An item that its key tells from the others.
pub trait Keyed {
    // its key
    ghost key_of: { Self → ℕ };

    /// Its key.
    fn key(&self) -> u32
        ensures { result ≡ key_of self.now };
}

/// The item with the key, if there is one.
pub fn item_of<T: Keyed>(key: u32, items: &[T]) -> Option<&T>
    ensures { option_map (λ x. x.now) result ≡ item_at T.key_of items.now key }
{
    for item in items {
        if item.key() == key {
            return Some(item);
        }
    }
    None
}

/// The index of the item with the key, which is there.
pub fn index_of<T: Keyed>(key: u32, items: &[T]) -> usize
    requires { IsSome (item_at T.key_of items.now key) }
    ensures index { result ≡ position_or_len (has_key T.key_of key) items.now }
    ensures within { result < length items.now }
    ensures item { (d : T) → item_at T.key_of items.now key ≡ Some (get_or items.now result d) }
{
    for (index, item) in items.iter().enumerate() {
        if item.key() == key {
            return index;
        }
    }
    unreachable!()
}

/// The index of the first item with a greater key.
fn index_after<T: Keyed>(key: u32, items: &[T]) -> usize
    ensures index { result ≡ position_or_len (is_after T.key_of key) items.now }
    ensures within { result ≤ length items.now }
{
    for (index, item) in items.iter().enumerate() {
        if key < item.key() {
            return index;
        }
    }
    items.len()
}

/// Puts an item among the others, by its key, where there is room. It takes no memory.
pub fn enter_within<T: Keyed + Drop>(item: T, items: &mut Vec<T>)
    requires { vec_len items.old < vec_capacity items.old }
    ensures items { items.new.items ≡ entered T.key_of item items.old.items }
    ensures len { vec_len items.new ≡ vec_len items.old + 1 }
    ensures capacity { vec_capacity items.new ≡ vec_capacity items.old }
{
    let index = index_after(item.key(), items);
    match items.insert(index, item) {
        Ok(()) => (),
        Err(_) => unreachable!(),
    }
}

/// Takes out the item with the key, which is there.
pub fn take_out<T: Keyed>(key: u32, items: &mut Vec<T>) -> T
    requires there { IsSome (item_at T.key_of items.old.items key) }
    requires rising { AllPairs (IsBelow T.key_of) items.old.items }
    ensures item { item_at T.key_of items.old.items key ≡ Some result }
    ensures rest { items.new.items ≡ without T.key_of key items.old.items }
    ensures len { vec_len items.new + 1 ≡ vec_len items.old }
    ensures capacity { vec_capacity items.new ≡ vec_capacity items.old }
{
    let index = index_of(key, items);
    items.remove(index)
}
