// A store that is a journal of records, only ever appended to. Its meaning is a function of its bytes; no call of it allocates.

#![tactic(auto)]

ghost use Rattle.std.specs.Prelude.{◌≡◌, ◌-◌, ◌*◌, ◌≤◌, length, drop, replicate};
ghost use Rattle.journal.specs.Records.{records, used};
ghost use Rattle.journal.specs.Held.{versions, Waits, NoBlank, LastsHeld};

mod append;
mod calls;
mod made;
mod record;
mod scan;

// The bytes are handed back whole, so where their records end, at `end` with `count` versions among them, stands beside them; only
// zeros follow. Each version has its 28 bytes: those of its put and of a rise to it, since rises and versions that wait for theirs are
// no more than the versions.
#[derive(Drop)]
pub struct Journal {
    bytes: Vec<u8>,
    end: usize,
    count: usize,
    ghost within: { end ≤ length bytes.items },
    ghost ends: { end ≡ used (records bytes.items) },
    ghost clear: { drop end bytes.items ≡ replicate (length bytes.items - end) 0 },
    ghost counted: { count ≡ versions (records bytes.items) },
    ghost room: { count * 28 ≤ length bytes.items },
    ghost waits: { Waits (records bytes.items) },
    ghost blank: { NoBlank (records bytes.items) },
    ghost committed: { LastsHeld (records bytes.items) },
}
