// The filter rule: the mark is a Bloom filter of 64 bits, in which each item sets two.
ghost use Rattle.std.specs.Prelude.{◌≡◌, ◌<◌};
ghost use Rattle.naming.specs.Marks.{bits_of, has_bit, filter_rule};
ghost use Rattle.naming.specs.Named.{filter_lawful};

use super::rule::Naming;

#[derive(Clone, Copy)]
pub struct FilterRule;

// The bits that an item sets: none for 0.
fn bits(item: u8) -> u64
    ensures { result ≡ bits_of item }
{
    if item == 0 {
        return 0;
    }
    (1u64 << (item % 64)) | (1u64 << (item / 4))
}

// Whether the bit is set.
fn is_set(mark: u64, bit: u8) -> bool
    requires { bit < 64 }
    ensures { result ≡ has_bit mark bit }
{
    (mark >> bit) % 2 == 1
}

impl Naming for FilterRule {
    ghost rule = { filter_rule };

    ghost lawful = { filter_lawful };

    fn mark(items: [u8; 8]) -> u64 {
        items.iter().fold(0, |mark, item| mark | bits(*item))
    }

    fn names(mark: u64, item: u8) -> bool {
        item > 0 && is_set(mark, item % 64) && is_set(mark, item / 4)
    }

    fn asks_twice() -> bool {
        false
    }
}
