// A service at its start.
ghost use Rattle.std.specs.Prelude.{◌≡◌};
ghost use Rattle.service.specs.Meaning.{meaning, Started};

use super::state::{OrderTable, ReadTable, Service};
use naming::Naming;
use rows::{OrderRow, ReadRow};
use store::Store;

impl<S: Store, N: Naming> Service<S, N> {
    // Nothing filed and nothing open, over the store as it is.
    pub fn new(store: S, rule: N) -> Service<S, N>
        ensures { Started (S.Store.view store) (meaning S.Store.view result) }
    {
        let orders = OrderTable {
            rows: [OrderRow {
                sequence: 0,
                current: None,
            }; 16],
        };
        let reads = ReadTable {
            rows: [ReadRow { current: None }; 16],
        };
        Service {
            store,
            rule,
            orders,
            reads,
        }
    }
}
