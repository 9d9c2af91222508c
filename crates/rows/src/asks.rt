// Which asks of a read are due.
ghost use Rattle.std.specs.Prelude.{◌≡◌};
ghost use Rattle.protocol.specs.Asks.{progress, stamp_in, mark_in, wanted as wanted_stamp, all_made, asks_again, due_second, finished, asks_made, eight};
ghost use Rattle.protocol.specs.Refusals.{read_item};
ghost use Rattle.rows.specs.Rows.{read_in};

use super::read::{OpenRead, ReadPlace};
use blend::is_later;
use naming::Naming;
use std::array;

impl OpenRead {
    // The item at a place; 0 past the list.
    pub fn item(&self, place: u8) -> u8
        ensures { result ≡ read_item (read_in self.now) place }
    {
        self.listed()
            .get(usize::from(place))
            .map_or(0, |place| place.item)
    }

    // What the first ask of a place answered, if it was made.
    pub(super) fn first(&self, place: u8) -> Option<(u32, u64, u64)>
        ensures { result ≡ (read_in self.now).first place }
    {
        self.places
            .get(usize::from(place))
            .and_then(|place| place.first)
    }

    // Whether the second ask of a place was made.
    fn is_again(&self, place: u8) -> bool
        ensures { result ≡ (read_in self.now).again place }
    {
        self.places
            .get(usize::from(place))
            .is_some_and(|place| place.again)
    }

    // The stamp and the mark that the first ask of a place answered; 0 where it was not made.
    fn answered(&self, place: u8) -> (u32, u64)
        ensures stamp { result.0 ≡ stamp_in ((read_in self.now).first place) }
        ensures mark { result.1 ≡ mark_in ((read_in self.now).first place) }
    {
        // A match on the place as it stands, since a read asks this for each pair of places: only stamp and mark are copied.
        match self.places.get(usize::from(place)) {
            Some(
                ReadPlace {
                    first: Some((stamp, _, mark)),
                    ..
                },
            ) => (*stamp, *mark),
            _ => (0, 0),
        }
    }

    // The stamp that the place p wants from the place q; 0 where it wants none.
    fn wants<N: Naming>(&self, p: u8, q: u8) -> u32
        ensures { result ≡ wanted_stamp N.Naming.rule (progress (read_in self.now)) p q }
    {
        if q >= self.count {
            return 0;
        }
        let (own, _) = self.answered(p);
        if p == q {
            return if N::asks_twice() { own } else { 0 };
        }
        let (other, mark) = self.answered(q);
        if is_later(other, own) && N::names(mark, self.item(p)) {
            other
        } else {
            0
        }
    }

    // What the place wants from each place.
    pub fn wanted<N: Naming>(&self, p: u8) -> [u32; 8]
        ensures { result ≡ eight (wanted_stamp N.Naming.rule (progress (read_in self.now)) p) }
    {
        // The check proves that no bit is lost: `try_from` would add a case that cannot come.
        array::from_fn(|q| self.wants::<N>(p, q as u8))
    }

    // Whether all first asks are made.
    pub fn all_made(&self) -> bool
        ensures { result ≡ all_made (progress (read_in self.now)) }
    {
        self.listed().iter().all(|place| place.first.is_some())
    }

    // Whether the place is to be asked again, once all first asks are made.
    fn asks_again<N: Naming>(&self, p: u8) -> bool
        ensures { result ≡ asks_again N.Naming.rule (progress (read_in self.now)) p }
    {
        N::asks_twice() || (0..self.count).any(|q| self.wants::<N>(p, q) != 0)
    }

    // Whether the second ask of the place is due, once all first asks are made.
    pub fn is_due<N: Naming>(&self, p: u8) -> bool
        ensures { result ≡ due_second N.Naming.rule (progress (read_in self.now)) p }
    {
        self.asks_again::<N>(p) && !self.is_again(p)
    }

    // Whether all first asks and all due second asks are made.
    pub fn is_finished<N: Naming>(&self) -> bool
        ensures { result ≡ finished N.Naming.rule (progress (read_in self.now)) }
    {
        self.all_made() && (0..self.count).all(|p| !self.is_due::<N>(p))
    }

    // How many asks were made.
    pub fn asks(&self) -> u8
        ensures { result ≡ asks_made (progress (read_in self.now)) }
    {
        let made = self.listed().iter().filter(|place| place.first.is_some());
        let again = self.listed().iter().filter(|place| place.again);
        // The check proves that no bit is lost: `try_from` would add a case that cannot come.
        (made.count() + again.count()) as u8
    }
}
