// The interface of a naming rule, with its law.
ghost use Rattle.std.specs.Prelude.{◌≡◌};
ghost use Rattle.protocol.specs.Naming.{Naming as Rule, Lawful};

pub trait Naming {
    // The rule as the protocol has it: its marks, what they name, and whether a read always asks twice.
    ghost rule: { Rule };

    // The mark of eight bytes, where 0 is an empty place.
    fn mark(items: [u8; 8]) -> u64
        ensures { result ≡ rule.marks items };

    // Whether a mark names an item.
    fn names(mark: u64, item: u8) -> bool
        ensures { result ≡ rule.names mark item };

    // Whether a read always asks twice.
    fn asks_twice() -> bool
        ensures { result ≡ rule.twice };

    // A mark names every nonzero byte that it was made from, and item 0 is never named.
    ghost lawful: { Lawful rule };
}
