// Which calls of its writer a row admits, and how they change it.
ghost use Rattle.std.specs.Prelude.{◌≡◌, ℕ, ◌≤◌};
ghost use Rattle.blend.specs.Refusals.{first_of};
ghost use Rattle.rows.specs.Faults.{refusal_in, About};
ghost use Rattle.protocol.specs.Refusals.{all_prepared, all_committed};
ghost use Rattle.rows.specs.Rows.{order_in, row_of};
ghost use Rattle.rows.specs.OrderCalls.{stage_of, items_in, order_tests, within_list};

use super::fault::Fault;
use super::order::{OpenOrder, OrderRow};

// An order gathers until every place is prepared, is then sealed, and complete once every place is committed.
#[derive(Clone, Copy, PartialEq, Eq, Debug)]
pub enum Stage {
    Idle,
    Gathering,
    Sealed,
    Complete,
}

#[derive(Clone, Copy, PartialEq, Eq, Debug)]
pub enum OrderCall {
    Prepare(u8),
    Commit(u8),
    Close,
    Withdraw,
}

impl OpenOrder {
    // Whether every place of the order is prepared.
    fn is_prepared(&self) -> bool
        ensures { (w : ℕ) → result ≡ all_prepared (order_in w self.now) }
    {
        self.listed().iter().all(|place| place.prepared)
    }

    // Whether every place of the order is committed.
    fn is_committed(&self) -> bool
        ensures { (w : ℕ) → result ≡ all_committed (order_in w self.now) }
    {
        self.listed().iter().all(|place| place.committed)
    }
}

impl OrderRow {
    // Where the writer's order stands.
    pub fn stage(&self) -> Stage
        ensures { (w : ℕ) → result ≡ stage_of (row_of w self.now).current }
    {
        let Some(order) = &self.current else {
            return Stage::Idle;
        };
        if !order.is_prepared() {
            return Stage::Gathering;
        }
        if order.is_committed() {
            Stage::Complete
        } else {
            Stage::Sealed
        }
    }

    // How many items the order lists; 0 without one.
    pub fn len(&self) -> u8
        ensures value { (w : ℕ) → result ≡ items_in (row_of w self.now).current }
        ensures few { result ≤ 8 }
    {
        self.current.as_ref().map_or(0, |order| order.count)
    }

    // Whether the row admits the call, or why it refuses it.
    pub fn admit(&self, call: OrderCall) -> Result<(), Fault>
        ensures answer { (w : ℕ) → first_of (order_tests (row_of w self.now).current call) ≡ refusal_in result }
        ensures few { (w : ℕ) → items_in (row_of w self.now).current ≤ 8 }
        ensures own { (i : ℕ) → About i result }
    {
        let len = self.len();
        // An arm that takes a place names one stage: the check has no rule for `|` beside a bound field.
        match (self.stage(), call) {
            (Stage::Idle, _) => Err(Fault::NoOrder),
            (Stage::Gathering, OrderCall::Prepare(place)) => within(len, place),
            (Stage::Gathering, OrderCall::Commit(place)) => {
                within(len, place).and(Err(Fault::Gathering))
            }
            (Stage::Gathering, OrderCall::Withdraw) => Ok(()),
            (Stage::Gathering | Stage::Sealed, OrderCall::Close) => Err(Fault::Incomplete),
            (Stage::Sealed, OrderCall::Prepare(place)) => within(len, place),
            (Stage::Sealed, OrderCall::Commit(place)) => within(len, place),
            (Stage::Sealed | Stage::Complete, OrderCall::Withdraw) => Err(Fault::Sealed),
            (Stage::Complete, OrderCall::Prepare(place)) => within(len, place),
            (Stage::Complete, OrderCall::Commit(place)) => within(len, place),
            (Stage::Complete, OrderCall::Close) => Ok(()),
        }
    }
}

// A place beyond the list is refused.
fn within(len: u8, place: u8) -> Result<(), Fault>
    ensures { result ≡ within_list len place }
{
    if place >= len {
        return Err(Fault::Place);
    }
    Ok(())
}
