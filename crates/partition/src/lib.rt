// Two stores as one: items below the bound live in the first, the others in the second.

#![tactic(auto)]

ghost use Rattle.std.specs.Prelude.{◌≡◌, nat_lt};
ghost use Rattle.store.specs.Outcomes.{Same};
ghost use Rattle.partition.specs.Sides.{parted, partition_view};
ghost use Rattle.std.proofs.Common.{rules};

use store::{Store, StoreFault};

#[derive(Drop)]
pub struct Partition<A, B> {
    first: A,
    second: B,
    bound: u8,
}

impl<A: Store, B: Store> Partition<A, B> {
    pub fn new(first: A, second: B, bound: u8) -> Partition<A, B>
        ensures { Same (parted bound (A.Store.view first) (B.Store.view second)) (partition_view A.Store.view B.Store.view result) }
    {
        Partition {
            first,
            second,
            bound,
        }
    }

    // Whether an item lives in the first store.
    fn is_first(&self, item: u8) -> bool
        ensures { result ≡ nat_lt item self.now.bound }
    {
        item < self.bound
    }
}

// Each call names both stores: they are of two types, no function may hand out a `dyn Store`, and a local one would be no shorter.
impl<A: Store, B: Store> Store for Partition<A, B> {
    ghost view = { partition_view A.Store.view B.Store.view };

    ghost last_held = { Prim.search rules };

    fn put(&mut self, item: u8, stamp: u32, code: u64, mark: u64) -> Result<bool, StoreFault> {
        if self.is_first(item) {
            self.first.put(item, stamp, code, mark)
        } else {
            self.second.put(item, stamp, code, mark)
        }
    }

    fn commit(&mut self, item: u8, stamp: u32) -> Result<bool, StoreFault> {
        if self.is_first(item) {
            self.first.commit(item, stamp)
        } else {
            self.second.commit(item, stamp)
        }
    }

    fn last(&self, item: u8) -> Result<(u32, u64, u64), StoreFault> {
        if self.is_first(item) {
            self.first.last(item)
        } else {
            self.second.last(item)
        }
    }

    fn pick(&self, item: u8, stamps: [u32; 8]) -> Result<(u32, u64, u64), StoreFault> {
        if self.is_first(item) {
            self.first.pick(item, stamps)
        } else {
            self.second.pick(item, stamps)
        }
    }
}
