// A frame at the front of bytes of its own: an array and a length, since a frame is written into an array that stands whole.
ghost use Rattle.std.specs.Prelude.{◌≡◌, ◌≤◌, take};

#[derive(Clone, Copy)]
pub struct Framed<const N: usize> {
    bytes: [u8; N],
    length: usize,
    ghost within: { length ≤ N },
}

impl<const N: usize> Framed<N> {
    // The first bytes, as many as the length says; all where it says more.
    pub fn new(bytes: [u8; N], length: usize) -> Framed<N>
        ensures { take result.length result.bytes ≡ take length bytes.entry }
    {
        Framed {
            bytes,
            length: length.min(N),
        }
    }

    pub fn frame(&self) -> &[u8]
        ensures { result.now ≡ take self.now.length self.now.bytes }
    {
        &self.bytes[..self.length]
    }
}
