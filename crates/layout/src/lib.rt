// Numbers laid out as bytes, high byte first, by widths. Nothing here allocates.

#![tactic(auto)]

ghost use Rattle.std.specs.Prelude.{◌≡◌, ◌+◌, ℕ, [], ◌∷◌, length, option_map};
ghost use Rattle.layout.specs.Layout.{laid, Long, Bytes, Again, Only, FitsRead};
ghost use Rattle.layout.specs.Bodies.{put_widths, commit_widths, version_widths, version_in};
ghost use Rattle.layout.specs.Places.{within, field_at, over};

// Over any list of widths: what is laid is as long as its widths and reads as it was, and what is read lays as it was.
pub fn layouts_stand() -> u8
    ensures long { Long }
    ensures bytes { Bytes }
    ensures again { Again }
    ensures only { Only }
    ensures fits { FitsRead }
{
    0
}

// A number that is laid as bytes, high byte first.
pub trait Number: Sized {
    // How many bytes it takes.
    ghost width: { ℕ };

    ghost value: { Self → ℕ };

    // The number in the first bytes, absent where they are too few.
    fn first(bytes: &[u8]) -> Option<Self>
        ensures { option_map value result ≡ field_at width 0 bytes.now };
}

impl Number for u32 {
    ghost width = { 4 };

    ghost value = { λ n. n };

    fn first(bytes: &[u8]) -> Option<u32> {
        Some(u32::from_be_bytes(*bytes.first_chunk()?))
    }
}

impl Number for u64 {
    ghost width = { 8 };

    ghost value = { λ n. n };

    fn first(bytes: &[u8]) -> Option<u64> {
        Some(u64::from_be_bytes(*bytes.first_chunk()?))
    }
}

// The number in the bytes at a place, absent where they are not all there.
pub fn number_at<T: Number>(bytes: &[u8], at: usize) -> Option<T>
    ensures { option_map T.value result ≡ field_at T.width at bytes.now }
{
    T::first(bytes.get(at..)?)
}

// Lays bytes over those at a place, and leaves the others; where they do not fit, answers no and leaves all.
pub fn lay_at(out: &mut [u8], at: usize, bytes: &[u8]) -> bool
    ensures answer { result ≡ within at (length bytes.now) out.old }
    ensures after { out.new ≡ over at bytes.now out.old }
{
    let Some(end) = at.checked_add(bytes.len()) else {
        return false;
    };
    if end > out.len() {
        return false;
    }
    // No `get_mut(at..end)`: behind it a proof knows the slice's length and none of its bytes.
    out[at..end].copy_from_slice(bytes);
    true
}

// A version: stamp, code, mark.
pub fn version_body(version: (u32, u64, u64)) -> [u8; 20]
    ensures { result ≡ laid version_widths (version.0 ∷ version.1 ∷ version.2 ∷ []) }
{
    let (stamp, code, mark) = version;
    let mut body = [0; 20];
    body[..4].copy_from_slice(&stamp.to_be_bytes());
    body[4..12].copy_from_slice(&code.to_be_bytes());
    body[12..].copy_from_slice(&mark.to_be_bytes());
    body
}

// The body of a put: item, stamp, code, mark.
pub fn put_body(item: u8, stamp: u32, code: u64, mark: u64) -> [u8; 21]
    ensures { result ≡ laid put_widths (item ∷ stamp ∷ code ∷ mark ∷ []) }
{
    let mut body = [item; 21];
    body[1..].copy_from_slice(&version_body((stamp, code, mark)));
    body
}

// The body of a commit: item, stamp.
pub fn commit_body(item: u8, stamp: u32) -> [u8; 5]
    ensures { result ≡ laid commit_widths (item ∷ stamp ∷ []) }
{
    let mut body = [item; 5];
    body[1..].copy_from_slice(&stamp.to_be_bytes());
    body
}

// The version in twenty bytes, absent for any other number of bytes.
pub fn version_of(bytes: &[u8]) -> Option<(u32, u64, u64)>
    ensures { result ≡ version_in bytes.now }
{
    if bytes.len() != 20 {
        return None;
    }
    Some((
        number_at(bytes, 0)?,
        number_at(bytes, 4)?,
        number_at(bytes, 12)?,
    ))
}
