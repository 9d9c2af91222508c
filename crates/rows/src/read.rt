// A reader's row: its open read.
ghost use Rattle.std.specs.Prelude.{◌≡◌, ◌≤◌, take};

// One place of a read: its item, what its first ask answered, whether its second ask was made, and the version kept.
// `again` beside `kept` is no Option: a place keeps a version before its second ask too. Wide fields stand first, as in an order's place.
#[derive(Clone, Copy, PartialEq, Eq, Debug)]
pub struct ReadPlace {
    pub first: Option<(u32, u64, u64)>,
    pub kept: (u32, u64, u64),
    pub item: u8,
    pub again: bool,
}

// The read lists the first `count` of its places, as an order does.
#[derive(Clone, Copy)]
pub struct OpenRead {
    pub places: [ReadPlace; 8],
    pub count: u8,
    pub ghost few: { count ≤ 8 },
}

impl OpenRead {
    // The places that the read lists.
    pub fn listed(&self) -> &[ReadPlace]
        ensures { result.now ≡ take self.now.count self.now.places }
    {
        &self.places[..usize::from(self.count)]
    }
}

#[derive(Clone, Copy)]
pub struct ReadRow {
    pub current: Option<OpenRead>,
}
