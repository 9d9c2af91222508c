// The calls of writers.
ghost use Rattle.std.specs.Prelude.{◌≡◌};
ghost use Rattle.protocol.specs.Calls.{by_writer, file, prepare, commit, close, withdraw};
ghost use Rattle.protocol.specs.Step.{Step};
ghost use Rattle.protocol.specs.State.{order_of};
ghost use Rattle.protocol.specs.Refusals.{item_at};
ghost use Rattle.rows.specs.Faults.{About};
ghost use Rattle.service.specs.Meaning.{meaning, answer};
ghost use Rattle.service.specs.Ending.{EndsOrder};

use super::lists::{has_unfit, is_tangled};
use super::state::Service;
use blend::stamp_of;
use naming::Naming;
use rows::{Fault, OrderCall, about};
use store::Store;

impl<S: Store, N: Naming> Service<S, N> {
    // Files an order of the items with their codes; answers its stamp.
    pub fn file(
        &mut self,
        writer: u8,
        sequence: u32,
        items: &[u8],
        codes: &[u64],
    ) -> Result<u32, Fault>
        ensures { Step N.Naming.rule (meaning S.Store.view self.old) (by_writer writer (file sequence items.now codes.now)) (answer result) (meaning S.Store.view self.new) }
    {
        let row = self.orders.row(writer)?;
        if row.current.is_some() {
            return Err(Fault::OrderOpen);
        }
        if sequence <= row.sequence {
            return Err(Fault::Sequence);
        }
        let stamp = stamp_of(writer, sequence)?;
        if items.is_empty() || items.len() > 8 || codes.len() != items.len() {
            return Err(Fault::List);
        }
        if is_tangled(items) {
            return Err(Fault::Item);
        }
        if has_unfit(items, codes) {
            return Err(Fault::NoBody);
        }
        self.orders.rows[usize::from(writer)].file(sequence, stamp, items, codes);
        Ok(stamp)
    }

    // Puts the version of a place into the store; answers 1 where it is new.
    pub fn prepare(&mut self, writer: u8, place: u8) -> Result<u8, Fault>
        ensures step { Step N.Naming.rule (meaning S.Store.view self.old) (by_writer writer (prepare place)) (answer result) (meaning S.Store.view self.new) }
        ensures carries { About (item_at (order_of (meaning S.Store.view self.old) writer) place) result }
    {
        let row = self.orders.row(writer)?;
        row.admit(OrderCall::Prepare(place))?;
        let at = row.placed(place);
        let mark = N::mark(at.items);
        let fresh = about(at.item, self.store.put(at.item, at.stamp, at.code, mark))?;
        self.orders.rows[usize::from(writer)].prepare(place);
        Ok(u8::from(fresh))
    }

    // Commits the version of a place; answers 1 where the item's last stamp has risen. As prepare, but for the store's call and the row's:
    // what both share are calls of one line.
    pub fn commit(&mut self, writer: u8, place: u8) -> Result<u8, Fault>
        ensures step { Step N.Naming.rule (meaning S.Store.view self.old) (by_writer writer (commit place)) (answer result) (meaning S.Store.view self.new) }
        ensures carries { About (item_at (order_of (meaning S.Store.view self.old) writer) place) result }
    {
        let row = self.orders.row(writer)?;
        row.admit(OrderCall::Commit(place))?;
        let at = row.placed(place);
        let rose = about(at.item, self.store.commit(at.item, at.stamp))?;
        self.orders.rows[usize::from(writer)].commit(place);
        Ok(u8::from(rose))
    }

    // Ends a complete order; answers its stamp.
    pub fn close(&mut self, writer: u8) -> Result<u32, Fault>
        ensures { Step N.Naming.rule (meaning S.Store.view self.old) (by_writer writer close) (answer result) (meaning S.Store.view self.new) }
    {
        self.end_order(writer, OrderCall::Close)
    }

    // Ends a gathering order; answers its stamp. Its held versions stay.
    pub fn withdraw(&mut self, writer: u8) -> Result<u32, Fault>
        ensures { Step N.Naming.rule (meaning S.Store.view self.old) (by_writer writer withdraw) (answer result) (meaning S.Store.view self.new) }
    {
        self.end_order(writer, OrderCall::Withdraw)
    }

    // Ends the order of a writer whose row admits the call; answers its stamp.
    fn end_order(&mut self, writer: u8, call: OrderCall) -> Result<u32, Fault>
        ensures { EndsOrder (meaning S.Store.view self.old) writer call result (meaning S.Store.view self.new) }
    {
        let row = self.orders.row(writer)?;
        row.admit(call)?;
        let stamp = row.placed(0).stamp;
        self.orders.rows[usize::from(writer)].end();
        Ok(stamp)
    }
}
