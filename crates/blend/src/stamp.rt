// A stamp is a sequence and a writer in 32 bits. Stamp 0 is the blank version's, and no order has it.
ghost use Rattle.std.specs.Prelude.{◌≡◌, ◌/◌, ◌%◌};
ghost use Rattle.blend.specs.Stamps.{stamped, ReadsBack, later, later_of, StampOrder};

use super::refusal::Refusal;

pub const LAST_WRITER: u8 = 15;

pub const LAST_SEQUENCE: u32 = 268_435_455;

// The stamp of a writer's sequence.
pub fn stamp_of(writer: u8, sequence: u32) -> Result<u32, Refusal>
    ensures value { result ≡ stamped writer sequence }
    ensures back { ReadsBack writer sequence result }
{
    if writer > LAST_WRITER {
        return Err(Refusal::Writer);
    }
    if sequence == 0 || sequence > LAST_SEQUENCE {
        return Err(Refusal::Sequence);
    }
    Ok(sequence * 16 + u32::from(writer))
}

// The sequence of a stamp, 0 of the blank's.
pub fn sequence_of(stamp: u32) -> u32
    ensures { result ≡ stamp / 16 }
{
    stamp / 16
}

// The writer of a stamp.
pub fn writer_of(stamp: u32) -> u8
    ensures { result ≡ stamp % 16 }
{
    // The check proves that no bit is lost: `try_from` would add a case that cannot come.
    (stamp % 16) as u8
}

// Whether the first stamp is later than the second: the one place that compares stamps. The order is strict and total, and stamp 0 comes
// first.
#[tactic(auto, using(crate::proofs::Order::stamp_order), unfolding(crate::specs::Stamps::later))]
pub fn is_later(a: u32, b: u32) -> bool
    ensures value { result ≡ later a b }
    ensures order { StampOrder later }
{
    a > b
}

// The later of two stamps.
pub fn later_stamp(a: u32, b: u32) -> u32
    ensures { result ≡ later_of a b }
{
    if is_later(b, a) { b } else { a }
}
