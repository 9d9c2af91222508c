// A writer's row: its last sequence and its open order.
ghost use Rattle.std.specs.Prelude.{◌≡◌, ◌≤◌, take};

// One place of an order: its item with its code, and whether it is prepared and committed. The widest field stands first, since fields lie
// in the order of the source.
#[derive(Clone, Copy, PartialEq, Eq, Debug)]
pub struct OrderPlace {
    pub code: u64,
    pub item: u8,
    pub prepared: bool,
    pub committed: bool,
}

// The order lists the first `count` of its places: fixed places and a count, since an ArrayVec is not Copy, as an order is. A generic
// struct may hold no array of a type parameter, so a read has the same again.
#[derive(Clone, Copy)]
pub struct OpenOrder {
    pub places: [OrderPlace; 8],
    pub count: u8,
    pub stamp: u32,
    pub ghost few: { count ≤ 8 },
}

impl OpenOrder {
    // The places that the order lists.
    pub fn listed(&self) -> &[OrderPlace]
        ensures { result.now ≡ take self.now.count self.now.places }
    {
        &self.places[..usize::from(self.count)]
    }
}

// A row has no number of its own: its contracts hold for each writer w.
#[derive(Clone, Copy)]
pub struct OrderRow {
    pub sequence: u32,
    pub current: Option<OpenOrder>,
}
