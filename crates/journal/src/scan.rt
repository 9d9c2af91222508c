// What the records of a journal say, found by going over them from the first.
ghost use Rattle.std.specs.Prelude.{◌≡◌};
ghost use Rattle.std.specs.Iterator.{YieldsFirst, item_count};
ghost use Rattle.blend.specs.Stamps.{later};
ghost use Rattle.journal.specs.Records.{records};
ghost use Rattle.journal.specs.Held.{lookup, last_of};
ghost use Rattle.std.proofs.Common.{rules};

use super::Journal;
use super::record::{Record, head};
use blend::is_later;
use store::Versions;

// The records that bytes spell, from the first on.
#[derive(Drop)]
pub(crate) struct Records<'a>(&'a [u8]);

impl<'a> Iterator for Records<'a> {
    type Item = Record;

    ghost next_gives = { YieldsFirst (λ r. records r.0.now) };

    ghost remaining = { item_count (λ r. records r.0.now) };

    fn next(&mut self) -> Option<Record> {
        let record = head(self.0)?;
        self.0 = &self.0[record.size()..];
        Some(record)
    }
}

impl Versions for Journal {
    ghost held = { λ j. lookup (records j.bytes.items) };

    ghost none_blank = { Prim.search rules };

    fn find(&self, item: u8, stamp: u32) -> Option<(u64, u64)> {
        // A loop: with `find_map` the check leaves open that the answer is the first record's.
        for record in Records(&self.bytes) {
            if let Some(content) = record.held(item, stamp) {
                return Some(content);
            }
        }
        None
    }
}

// The last stamp of an item, 0 where none was committed.
pub(crate) fn last_of(bytes: &[u8], item: u8) -> u32
    ensures { result ≡ last_of (records bytes.now) item }
{
    Records(bytes).fold(0, |last, record| record.raise(item, last))
}

// Whether a commit of an item at a stamp would raise the item's last stamp.
pub(crate) fn raises_last(bytes: &[u8], item: u8, stamp: u32) -> bool
    ensures { result ≡ later stamp (last_of (records bytes.now) item) }
{
    is_later(stamp, last_of(bytes, item))
}
