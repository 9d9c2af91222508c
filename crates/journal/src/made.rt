// A journal made over bytes, its bytes handed back, and its space.
ghost use Rattle.std.specs.Prelude.{◌≡◌, ℕ, ◌/◌, length, replicate, vec_len};
ghost use Rattle.store.specs.Room.{Fresh};
ghost use Rattle.journal.specs.Held.{per_version};
ghost use Rattle.journal.specs.Means.{journal_view, RoomFor, WorkedSpaces};

use super::Journal;

impl Journal {
    // An empty journal over bytes that it is given, all of which become 00.
    pub fn new(bytes: Vec<u8>) -> Journal
        ensures empty { result.bytes.items ≡ replicate (vec_len bytes) 0 }
        ensures fresh { Fresh (vec_len bytes / 28) (journal_view result) }
    {
        Journal {
            bytes: emptied(bytes),
            end: 0,
            count: 0,
        }
    }

    // Hands the bytes back as they stand.
    pub fn into_bytes(self) -> Vec<u8>
        ensures { result ≡ self.bytes }
    {
        self.bytes
    }

    // How many versions it would still take, the same of every item. The bytes left suffice for these and for every rise still possible.
    #[tactic(auto, using(crate::proofs::Counts::used_is))]
    pub fn space(&self) -> usize
        ensures value { (i : ℕ) → result ≡ (journal_view self.now).space i }
        ensures room { RoomFor result self.now }
        ensures worked { WorkedSpaces }
    {
        capacity(&self.bytes) - self.count
    }
}

// The bytes, all 00.
fn emptied(mut bytes: Vec<u8>) -> Vec<u8>
    ensures { result.items ≡ replicate (vec_len bytes) 0 }
{
    bytes.fill(0);
    bytes
}

// How many versions the bytes take, each with a rise to it.
fn capacity(bytes: &[u8]) -> usize
    ensures { result ≡ length bytes.now / per_version }
{
    bytes.len() / 28
}
