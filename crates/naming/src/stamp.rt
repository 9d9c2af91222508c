// The stamp rule: marks say nothing, so every item may be named, and a read always asks twice.
ghost use Rattle.naming.specs.Marks.{stamp_rule};
ghost use Rattle.naming.specs.Named.{stamp_lawful};

use super::rule::Naming;

#[derive(Clone, Copy)]
pub struct StampRule;

impl Naming for StampRule {
    ghost rule = { stamp_rule };

    ghost lawful = { stamp_lawful };

    fn mark(_items: [u8; 8]) -> u64 {
        0
    }

    fn names(_mark: u64, item: u8) -> bool {
        item > 0
    }

    fn asks_twice() -> bool {
        true
    }
}
