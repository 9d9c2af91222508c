// A store that is a table of rows. Its memory is reserved when it is made, so no call of it allocates.

#![tactic(auto)]

ghost use Rattle.std.specs.Prelude.{◌≡◌, ℕ, ◌<◌, ◌≤◌, true, false, is_some, vec_len, vec_capacity, slice_index};
ghost use Rattle.table.specs.Rows.{lookup};

mod calls;

#[derive(Clone, Copy)]
struct Row {
    item: u8,
    stamp: u32,
    code: u64,
    mark: u64,
}

// Rows are found by item and stamp, and the last stamps stand by item. No row has stamp 0. A map would allocate in put; the capacity
// may be more than the size that was asked for.
#[derive(Drop)]
pub struct Table {
    rows: Vec<Row>,
    lasts: [u32; 256],
    size: usize,
    ghost within: { vec_len rows ≤ size },
    ghost reserved: { size ≤ vec_capacity rows },
    ghost blank: { (i : ℕ) → is_some (lookup rows.items i 0) ≡ false },
    ghost committed: { (i : ℕ) → 0 < slice_index lasts i → is_some (lookup rows.items i (slice_index lasts i)) ≡ true },
}
