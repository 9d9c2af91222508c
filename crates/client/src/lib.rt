// Work over any store, and over one put together of others.

#![tactic(auto)]

ghost use Rattle.std.specs.Prelude.{◌≡◌, min, IfOk, Ok, Some, MatchResult};
ghost use Rattle.store.specs.Room.{Fresh};
ghost use Rattle.client.specs.Publish.{PublishOutcome, TakesTwo};
ghost use Rattle.client.specs.Deep.{deep_view};
ghost use Rattle.client.specs.Words.{deep_reason};
ghost use Rattle.client.specs.declared.DeepFault.TheVariants.{NoMemory, Refused};

use partition::Partition;
use quota::Quota;
use std::alloc::{AllocError, Global};
use std::error::Error;
use std::fmt;
use store::{Store, StoreFault};
use table::Table;

// Puts a version, commits it, and answers the item's last version then.
pub fn publish<S: Store>(
    store: &mut S,
    item: u8,
    stamp: u32,
    code: u64,
    mark: u64,
) -> Result<(u32, u64, u64), StoreFault>
    ensures { PublishOutcome (S.view store.old) (S.view store.new) item stamp code mark result }
{
    store.put(item, stamp, code, mark)?;
    store.commit(item, stamp)?;
    store.last(item)
}

// A quota over a partition of two tables, as fresh as a table of the fewer of the rows and the limit.
fn quota_of_tables(
    heap: Global,
    rows: usize,
    bound: u8,
    limit: u32,
) -> Result<Quota<Partition<Table, Table>>, AllocError>
    ensures { IfOk result (λ q. Fresh (min rows limit) (deep_view q)) }
{
    let first = Table::new(heap, rows)?;
    let second = Table::new(heap, rows)?;
    Ok(Quota::new(Partition::new(first, second, bound), limit))
}

// Publishes a version and then an earlier one of the same item.
fn publish_two<S: Store>(store: &mut S) -> Result<(u32, u64, u64), StoreFault>
    ensures { TakesTwo (S.view store.old) 100 → result ≡ Ok (33, 5, 6) }
{
    publish(store, 100, 33, 5, 6)?;
    publish(store, 100, 17, 1, 2)
}

// Why nothing was published in a store of stores.
#[derive(Clone, Copy, PartialEq, Eq, Debug)]
pub enum DeepFault {
    NoMemory,
    Refused(StoreFault),
}

impl fmt::Display for DeepFault {
    ghost output = { λ fault. Some (deep_reason fault) };

    fn fmt<W: fmt::Write>(&self, f: &mut fmt::Formatter<W>) -> fmt::Result {
        match *self {
            Self::NoMemory => f.write_str("memory allocation failed"),
            Self::Refused(why) => f.write_str(why.reason()),
        }
    }
}

impl Error for DeepFault {}

impl From<AllocError> for DeepFault {
    ghost from_gives = { λ e fault. fault ≡ NoMemory };

    fn from(_e: AllocError) -> DeepFault {
        DeepFault::NoMemory
    }
}

impl From<StoreFault> for DeepFault {
    ghost from_gives = { λ e fault. fault ≡ Refused e };

    fn from(fault: StoreFault) -> DeepFault {
        DeepFault::Refused(fault)
    }
}

// Publishes out of order in a store of stores: the later version is the last, and only want of memory refuses.
pub fn publish_deep(heap: Global) -> Result<(u32, u64, u64), DeepFault>
    ensures { MatchResult result (λ x. x ≡ (33, 5, 6)) (λ fault. fault ≡ NoMemory) }
{
    let mut store = quota_of_tables(heap, 4, 100, 2)?;
    Ok(publish_two(&mut store)?)
}

#[cfg(test)]
mod tests {
    use super::*;
    use std::test::Fail;

    #[test]
    fn deep(rt: HostRuntime) -> Result<(), Fail> {
        assert_eq!(rt; publish_deep(rt.alloc()), Ok((33, 5, 6)));
        Ok(())
    }
}
