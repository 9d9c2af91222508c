// A store with a quota: of each item it puts at most as many new versions into the store below as its limit.

#![tactic(auto)]

ghost use Rattle.std.specs.Prelude.{◌≡◌, ℕ, get_or};
ghost use Rattle.store.specs.Outcomes.{Same};
ghost use Rattle.quota.specs.Limit.{limited, quota_view};
ghost use Rattle.std.proofs.Common.{rules};

use store::{Store, StoreFault, check_version, held_at, is_new};

#[derive(Drop)]
pub struct Quota<S> {
    below: S,
    limit: u32,
    // by item, the new versions put so far
    counts: [u32; 256],
}

impl<S: Store> Quota<S> {
    // A quota of which nothing is used.
    pub fn new(below: S, limit: u32) -> Quota<S>
        ensures { Same (limited limit (λ i. 0) (S.Store.view below)) (quota_view S.Store.view result) }
    {
        Quota {
            below,
            limit,
            counts: [0; 256],
        }
    }
}

impl<S: Store> Store for Quota<S> {
    ghost view = { quota_view S.Store.view };

    ghost last_held = { Prim.search rules };

    fn put(&mut self, item: u8, stamp: u32, code: u64, mark: u64) -> Result<bool, StoreFault> {
        check_version(item, stamp)?;
        let at = usize::from(item);
        if self.counts[at] < self.limit {
            let fresh = self.below.put(item, stamp, code, mark)?;
            self.counts[at] += u32::from(fresh);
            return Ok(fresh);
        }
        if is_new(held_at(&self.below, item, stamp), code, mark)? {
            Err(StoreFault::Full)
        } else {
            Ok(false)
        }
    }

    fn commit(&mut self, item: u8, stamp: u32) -> Result<bool, StoreFault> {
        self.below.commit(item, stamp)
    }

    fn last(&self, item: u8) -> Result<(u32, u64, u64), StoreFault> {
        self.below.last(item)
    }

    fn pick(&self, item: u8, stamps: [u32; 8]) -> Result<(u32, u64, u64), StoreFault> {
        self.below.pick(item, stamps)
    }
}
