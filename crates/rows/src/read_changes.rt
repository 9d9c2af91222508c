// How the calls of its reader change a row.
ghost use Rattle.std.specs.Prelude.{◌≡◌, ◌<◌, ◌≤◌, length, take, Some, None};
ghost use Rattle.protocol.specs.Step.{fresh_read, first_asked, second_asked};
ghost use Rattle.protocol.specs.Asks.{progress, eight, wanted as wanted_stamp, asks_made};
ghost use Rattle.protocol.specs.State.{the_read};
ghost use Rattle.protocol.specs.Refusals.{read_item};
ghost use Rattle.rows.specs.Places.{in_eight, opened_place};
ghost use Rattle.rows.specs.Rows.{read_in, reading};
ghost use Rattle.rows.specs.ReadCalls.{first_in, second_in};

use super::places::{at_or, count_of};
use super::read::{OpenRead, ReadPlace, ReadRow};
use naming::Naming;
use std::array;
use store::later_version;

// Eight places with their items, of which nothing was asked.
fn opened_places(items: &[u8]) -> [ReadPlace; 8]
    ensures { result ≡ in_eight (opened_place items.now) }
{
    array::from_fn(|k| ReadPlace {
        item: at_or(0, items, k),
        first: None,
        again: false,
        kept: (0, 0, 0),
    })
}

impl OpenRead {
    // A read of the first eight of a list of items, of which nothing was asked.
    pub fn new(items: &[u8]) -> OpenRead
        ensures { read_in result ≡ fresh_read (take 8 items.now) }
    {
        OpenRead {
            places: opened_places(items),
            count: count_of(items),
        }
    }

    // Sets what the first ask of a place answered, where it is one of the eight, as keep_first says.
    fn set_first(&mut self, place: u8, version: (u32, u64, u64))
        ensures { place < 8 → read_in self.new ≡ first_asked (read_in self.old) place version }
    {
        // By index, since std's `get_mut` says nothing of what the slice ends as.
        if place < 8 {
            let at = usize::from(place);
            let old = self.places[at];
            self.places[at] = ReadPlace {
                first: Some(version),
                kept: version,
                ..old
            };
        }
    }

    // As set_first: a closure for the fields would be longer than the lines that differ.
    fn set_second(&mut self, place: u8, version: (u32, u64, u64))
        ensures { place < 8 → read_in self.new ≡ second_asked (read_in self.old) place version }
    {
        // By index, as in set_first.
        if place < 8 {
            let at = usize::from(place);
            let old = self.places[at];
            self.places[at] = ReadPlace {
                again: true,
                kept: later_version(old.kept, version),
                ..old
            };
        }
    }

    // The version kept at a place; the blank past the eighth.
    fn kept(&self, place: u8) -> (u32, u64, u64)
        ensures { result ≡ (read_in self.now).kept place }
    {
        self.places
            .get(usize::from(place))
            .map_or((0, 0, 0), |place| place.kept)
    }
}

impl ReadRow {
    // Opens a read of up to eight items.
    pub fn open(&mut self, items: &[u8])
        ensures { length items.now ≤ 8 → reading self.new ≡ Some (fresh_read items.now) }
    {
        let read = OpenRead::new(items);
        self.current = Some(read);
    }

    // The item at a place of the open read; 0 without one, and past the list.
    pub fn item(&self, place: u8) -> u8
        ensures { result ≡ read_item (the_read (reading self.now)) place }
    {
        self.current.as_ref().map_or(0, |read| read.item(place))
    }

    // The stamps that a place wants from each place; all 0 without a read.
    pub fn wanted<N: Naming>(&self, place: u8) -> [u32; 8]
        ensures { result ≡ eight (wanted_stamp N.Naming.rule (progress (the_read (reading self.now))) place) }
    {
        // A match: with map_or and a closure the check leaves the clause open.
        match &self.current {
            Some(read) => read.wanted::<N>(place),
            None => [0; 8],
        }
    }

    // How many asks the open read made; 0 without one.
    pub fn asks(&self) -> u8
        ensures { result ≡ asks_made (progress (the_read (reading self.now))) }
    {
        self.current.as_ref().map_or(0, |read| read.asks())
    }

    // The version kept at a place.
    pub fn kept(&self, place: u8) -> (u32, u64, u64)
        ensures { result ≡ (the_read (reading self.now)).kept place }
    {
        self.current
            .as_ref()
            .map_or((0, 0, 0), |read| read.kept(place))
    }

    // Keeps what the first ask of a place answered, where it is one of the eight: a type for a place would ask more of callers.
    pub fn keep_first(&mut self, place: u8, version: (u32, u64, u64))
        ensures { place < 8 → reading self.new ≡ first_in (reading self.old) place version }
    {
        if let Some(read) = &mut self.current {
            read.set_first(place, version);
        }
    }

    // Keeps the later of what a place has and what its second ask answered; as keep_first, of the eight places.
    pub fn keep_second(&mut self, place: u8, version: (u32, u64, u64))
        ensures { place < 8 → reading self.new ≡ second_in (reading self.old) place version }
    {
        if let Some(read) = &mut self.current {
            read.set_second(place, version);
        }
    }

    // Ends the read.
    pub fn end(&mut self)
        ensures { reading self.new ≡ None }
    {
        self.current = None;
    }
}
