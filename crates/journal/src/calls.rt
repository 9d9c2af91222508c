// The calls of a journal as a store.
ghost use Rattle.journal.specs.Means.{journal_view};
ghost use Rattle.std.proofs.Common.{rules};

use super::Journal;
use super::append::append;
use super::record::Record;
use super::scan::{last_of, raises_last};
use store::{
    Store, StoreFault, Versions, check_item, check_version, is_new, pick_from, version_with,
};

impl Store for Journal {
    ghost view = { journal_view };

    ghost last_held = { Prim.search rules };

    fn put(&mut self, item: u8, stamp: u32, code: u64, mark: u64) -> Result<bool, StoreFault> {
        check_version(item, stamp)?;
        let fresh = is_new(self.find(item, stamp), code, mark)?;
        if !fresh {
            return Ok(false);
        }
        if self.space() == 0 {
            return Err(StoreFault::Full);
        }
        let record = Record::Put {
            item,
            stamp,
            code,
            mark,
        };
        append(&mut self.bytes, self.end, record);
        self.end += record.size();
        self.count += 1;
        Ok(true)
    }

    fn commit(&mut self, item: u8, stamp: u32) -> Result<bool, StoreFault> {
        check_version(item, stamp)?;
        self.find(item, stamp).ok_or(StoreFault::NotHeld)?;
        if !raises_last(&self.bytes, item, stamp) {
            return Ok(false);
        }
        let record = Record::Commit { item, stamp };
        append(&mut self.bytes, self.end, record);
        self.end += record.size();
        Ok(true)
    }

    fn last(&self, item: u8) -> Result<(u32, u64, u64), StoreFault> {
        check_item(item)?;
        let stamp = last_of(&self.bytes, item);
        Ok(version_with(stamp, self.find(item, stamp)))
    }

    fn pick(&self, item: u8, stamps: [u32; 8]) -> Result<(u32, u64, u64), StoreFault> {
        pick_from(self, item, stamps)
    }
}
