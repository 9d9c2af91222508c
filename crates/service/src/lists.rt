// Tests on lists of items and codes.
ghost use Rattle.std.specs.Prelude.{◌≡◌, ◌≤◌, length};
ghost use Rattle.protocol.specs.Refusals.{bad_items, unfit};

use blend::{fits_item, has_item};

// Whether an item is 0, or stands twice.
pub fn is_tangled(items: &[u8]) -> bool
    ensures { result ≡ bad_items items.now }
{
    // A loop: each item is looked for among those after it, and a recursion could overflow the stack.
    let mut rest = items;
    while let Some((item, others)) = rest.split_first() {
        if *item == 0 || has_item(others, *item) {
            return true;
        }
        rest = others;
    }
    false
}

// Whether a code is of no body of its item's kind.
// Items and codes come as two slices, as callers have them: a slice of pairs would ask more of them.
pub fn has_unfit(items: &[u8], codes: &[u64]) -> bool
    ensures { result ≡ unfit items.now codes.now }
{
    // A loop: with `any` over the zip the check leaves the answer open.
    for (item, code) in items.iter().zip(codes) {
        if !fits_item(*item, *code) {
            return true;
        }
    }
    false
}
