// Laying a frame at the front of a buffer.
ghost use Rattle.std.specs.Prelude.{◌≡◌, ◌∷◌, None};
ghost use Rattle.frames.specs.Family.{write_answer, written};

use super::fault::FrameFault;
use layout::lay_at;

// Lays a kind and a body, or refuses a short buffer and leaves it.
pub fn place(buf: &mut [u8], kind: u8, body: &[u8]) -> Result<usize, FrameFault>
    ensures answer { result ≡ write_answer None (kind ∷ body.now) buf.old }
    ensures after { buf.new ≡ written None (kind ∷ body.now) buf.old }
{
    if buf.is_empty() || !lay_at(buf, 1, body) {
        return Err(FrameFault::Buffer);
    }
    buf[0] = kind;
    Ok(body.len() + 1)
}
