// Eight places.
ghost use Rattle.std.specs.Prelude.{◌≡◌, min, length, slice_index_or};

// The element at a place of a list, or `empty` past its end.
pub fn at_or<T: Copy>(empty: T, list: &[T], place: usize) -> T
    ensures { result ≡ slice_index_or list.now place empty }
{
    list.get(place).copied().unwrap_or(empty)
}

// How many of the eight places a list takes.
pub(super) fn count_of(items: &[u8]) -> u8
    ensures { result ≡ min (length items.now) 8 }
{
    // The check proves that no bit is lost: `try_from` would add a case that cannot come.
    items.len().min(8) as u8
}
