// Why the service refuses, each reason with its number. A store's fault comes up whole, with the item it was about.
ghost use Rattle.std.specs.Prelude.{◌≡◌};
ghost use Rattle.rows.specs.Faults.{number_of, with_item, at_item, plain};

use blend::Refusal;
use store::StoreFault;

#[derive(Clone, Copy, PartialEq, Eq, Debug)]
pub enum Fault {
    // The fields of AtItem, named: as Store(AtItem) each match on it would take two values apart.
    Store { item: u8, fault: StoreFault },
    Writer,
    OrderOpen,
    Sequence,
    List,
    Item,
    NoBody,
    NoOrder,
    Place,
    Gathering,
    Incomplete,
    Sealed,
    Reader,
    ReadOpen,
    NoRead,
    Asked,
    FirstMissing,
    NotDue,
    Unfinished,
    Kind,
}

impl Fault {
    pub fn number(self) -> u8
        ensures { result ≡ number_of self }
    {
        // One variant has data, so the numbers are no discriminants.
        match self {
            Fault::Store { item: _, fault } => fault.number(),
            Fault::Writer => 10,
            Fault::OrderOpen => 11,
            Fault::Sequence => 12,
            Fault::List => 13,
            Fault::Item => 14,
            Fault::NoBody => 15,
            Fault::NoOrder => 16,
            Fault::Place => 17,
            Fault::Gathering => 18,
            Fault::Incomplete => 19,
            Fault::Sealed => 20,
            Fault::Reader => 21,
            Fault::ReadOpen => 22,
            Fault::NoRead => 23,
            Fault::Asked => 24,
            Fault::FirstMissing => 25,
            Fault::NotDue => 26,
            Fault::Unfinished => 27,
            Fault::Kind => 28,
        }
    }
}

// A store's fault with the item it was about.
#[derive(Clone, Copy, PartialEq, Eq, Debug)]
pub struct AtItem {
    pub item: u8,
    pub fault: StoreFault,
}

impl From<AtItem> for Fault {
    ghost from_gives = { λ e r. r ≡ with_item e };

    fn from(e: AtItem) -> Fault {
        Fault::Store {
            item: e.item,
            fault: e.fault,
        }
    }
}

// Plain input that is refused.
impl From<Refusal> for Fault {
    ghost from_gives = { λ e r. r ≡ plain e };

    fn from(e: Refusal) -> Fault {
        match e {
            Refusal::Writer => Fault::Writer,
            Refusal::Sequence => Fault::Sequence,
            Refusal::List => Fault::List,
            Refusal::Item => Fault::Item,
            Refusal::NoBody => Fault::NoBody,
        }
    }
}

// A store's answer with the item it was asked about.
pub fn about<T>(item: u8, answer: Result<T, StoreFault>) -> Result<T, AtItem>
    ensures { result ≡ at_item item answer }
{
    answer.map_err(|fault| AtItem { item, fault })
}
