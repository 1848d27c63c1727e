//! The front of a list.

ghost use Rattle.std.specs.Prelude.{◌≡◌, ◌≤◌, length, take};

/// The first `count` entries; all, if there are fewer.
pub fn front<T>(list: &[T], count: usize) -> &[T]
    ensures value { result.now ≡ take count list.now }
    ensures few { length result.now ≤ count }
{
    if list.len() <= count {
        list
    } else {
        list.split_at(count).0
    }
}
