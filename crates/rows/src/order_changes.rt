// What a row gives of an order's place, and how the calls of its writer change it.
ghost use Rattle.std.specs.Prelude.{◌≡◌, ℕ, ◌<◌, ◌≤◌, length, Some, None, slice_index};
ghost use Rattle.protocol.specs.Step.{filed_row, with_order};
ghost use Rattle.protocol.specs.Naming.{padded};
ghost use Rattle.rows.specs.Places.{in_eight, filed_place};
ghost use Rattle.rows.specs.Rows.{order_items, order_codes, order_in, order_laid, row_of};
ghost use Rattle.rows.specs.OrderCalls.{placed_at, prepared_in, committed_in};

use super::order::{OpenOrder, OrderPlace, OrderRow};
use super::places::{at_or, count_of};
use std::array;

// One place of an order: its item and code, the order's stamp, and all its items in eight places.
#[derive(Clone, Copy, PartialEq, Eq, Debug, Default)]
pub struct Placed {
    pub item: u8,
    pub code: u64,
    pub stamp: u32,
    pub items: [u8; 8],
}

// Eight places with their items and codes, of which none is prepared or committed.
fn filed_places(items: &[u8], codes: &[u64]) -> [OrderPlace; 8]
    ensures { result ≡ in_eight (filed_place items.now codes.now) }
{
    array::from_fn(|k| OrderPlace {
        item: at_or(0, items, k),
        code: at_or(0, codes, k),
        prepared: false,
        committed: false,
    })
}

impl OpenOrder {
    // An order of the first eight of a list of items, each with its code, of which no place is prepared; code 0 past the codes.
    pub fn new(stamp: u32, items: &[u8], codes: &[u64]) -> OpenOrder
        ensures { (w : ℕ) → order_in w result ≡ order_laid w stamp items.now codes.now }
    {
        OpenOrder {
            places: filed_places(items, codes),
            count: count_of(items),
            stamp,
        }
    }

    // The item at a place; 0 past the list.
    fn item(&self, at: usize) -> u8
        ensures { result ≡ slice_index (order_items self.now) at }
    {
        self.listed().get(at).map_or(0, |place| place.item)
    }

    // The code at a place; 0 past the list. As item, one line with another field.
    fn code(&self, at: usize) -> u64
        ensures { result ≡ slice_index (order_codes self.now) at }
    {
        self.listed().get(at).map_or(0, |place| place.code)
    }

    // The items in eight places, zeros after them.
    fn items(&self) -> [u8; 8]
        ensures { result ≡ padded 8 (order_items self.now) }
    {
        array::from_fn(|k| self.item(k))
    }

    // A place of the order; 0 past the list.
    fn placed(&self, place: u8) -> Placed
        ensures { (w : ℕ) → result ≡ placed_at (Some (order_in w self.now)) place }
    {
        Placed {
            item: self.item(usize::from(place)),
            code: self.code(usize::from(place)),
            stamp: self.stamp,
            items: self.items(),
        }
    }
}

impl OrderRow {
    // A place of the open order; all 0 without one, and past the list.
    pub fn placed(&self, place: u8) -> Placed
        ensures { (w : ℕ) → result ≡ placed_at (row_of w self.now).current place }
    {
        let Some(order) = &self.current else {
            return Placed::default();
        };
        order.placed(place)
    }

    // Opens an order of up to eight items, each with its code.
    pub fn file(&mut self, sequence: u32, stamp: u32, items: &[u8], codes: &[u64])
        ensures { length items.now ≤ 8 → length codes.now ≡ length items.now → (w : ℕ) → row_of w self.new ≡ filed_row w sequence items.now codes.now stamp }
    {
        let order = OpenOrder::new(stamp, items, codes);
        self.sequence = sequence;
        self.current = Some(order);
    }

    // Marks a place as prepared, where it is one of the eight: a type for a place would ask more of callers.
    pub fn prepare(&mut self, place: u8)
        ensures { place < 8 → (w : ℕ) → row_of w self.new ≡ with_order (row_of w self.old) (prepared_in (row_of w self.old).current place) }
    {
        if let Some(order) = &mut self.current {
            // By index, since std's `get_mut` says nothing of what the slice ends as.
            if place < 8 {
                order.places[usize::from(place)].prepared = true;
            }
        }
    }

    // Marks a place as committed: as prepare, since a closure for the field would be longer than the line that differs.
    pub fn commit(&mut self, place: u8)
        ensures { place < 8 → (w : ℕ) → row_of w self.new ≡ with_order (row_of w self.old) (committed_in (row_of w self.old).current place) }
    {
        if let Some(order) = &mut self.current {
            // By index, as in prepare.
            if place < 8 {
                order.places[usize::from(place)].committed = true;
            }
        }
    }

    // Ends the order.
    pub fn end(&mut self)
        ensures { (w : ℕ) → row_of w self.new ≡ with_order (row_of w self.old) None }
    {
        self.current = None;
    }
}
