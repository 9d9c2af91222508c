// A table made, and its calls as a store.
ghost use Rattle.std.specs.Prelude.{◌≡◌, IfOk};
ghost use Rattle.store.specs.Room.{Fresh};
ghost use Rattle.table.specs.Rows.{lookup};
ghost use Rattle.table.specs.Means.{table_view};
ghost use Rattle.std.proofs.Common.{rules};

use super::{Row, Table};
use blend::is_later;
use std::alloc::{AllocError, Global};
use store::{
    Store, StoreFault, Versions, check_item, check_version, is_new, pick_from, version_with,
};

impl Table {
    // An empty table that takes as many versions as it has rows.
    pub fn new(heap: Global, rows: usize) -> Result<Table, AllocError>
        ensures { IfOk result (λ t. Fresh rows (table_view t)) }
    {
        let all = Vec::with_capacity(heap, rows)?;
        Ok(Table {
            rows: all,
            lasts: [0; 256],
            size: rows,
        })
    }
}

impl Versions for Table {
    ghost held = { λ t. lookup t.rows.items };

    ghost none_blank = { Prim.search rules };

    fn find(&self, item: u8, stamp: u32) -> Option<(u64, u64)> {
        self.rows
            .iter()
            .find(|row| row.item == item && row.stamp == stamp)
            .map(|row| (row.code, row.mark))
    }
}

impl Store for Table {
    ghost view = { table_view };

    ghost last_held = { Prim.search rules };

    // What a journal's put shares with it are calls of one line.
    fn put(&mut self, item: u8, stamp: u32, code: u64, mark: u64) -> Result<bool, StoreFault> {
        check_version(item, stamp)?;
        let fresh = is_new(self.find(item, stamp), code, mark)?;
        if !fresh {
            return Ok(false);
        }
        if self.rows.len() >= self.size {
            return Err(StoreFault::Full);
        }
        let row = Row {
            item,
            stamp,
            code,
            mark,
        };
        self.rows.push_reserved(row);
        Ok(true)
    }

    fn commit(&mut self, item: u8, stamp: u32) -> Result<bool, StoreFault> {
        check_version(item, stamp)?;
        self.find(item, stamp).ok_or(StoreFault::NotHeld)?;
        let at = usize::from(item);
        let rises = is_later(stamp, self.lasts[at]);
        if rises {
            self.lasts[at] = stamp;
        }
        Ok(rises)
    }

    fn last(&self, item: u8) -> Result<(u32, u64, u64), StoreFault> {
        check_item(item)?;
        let stamp = self.lasts[usize::from(item)];
        Ok(version_with(stamp, self.find(item, stamp)))
    }

    fn pick(&self, item: u8, stamps: [u32; 8]) -> Result<(u32, u64, u64), StoreFault> {
        pick_from(self, item, stamps)
    }
}
