// The list rule: the mark is the eight bytes themselves, the first one highest.
ghost use Rattle.naming.specs.Marks.{list_rule};
ghost use Rattle.naming.specs.Named.{list_lawful};

use super::rule::Naming;

#[derive(Clone, Copy)]
pub struct ListRule;

impl Naming for ListRule {
    ghost rule = { list_rule };

    ghost lawful = { list_lawful };

    fn mark(items: [u8; 8]) -> u64 {
        u64::from_be_bytes(items)
    }

    fn names(mark: u64, item: u8) -> bool {
        item > 0 && mark.to_be_bytes().contains(&item)
    }

    fn asks_twice() -> bool {
        false
    }
}
