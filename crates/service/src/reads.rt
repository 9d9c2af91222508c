// The calls of readers.
ghost use Rattle.std.specs.Prelude.{◌≡◌};
ghost use Rattle.protocol.specs.Calls.{by_reader, open_read, first_ask, second_ask, take, release};
ghost use Rattle.protocol.specs.Step.{Step};
ghost use Rattle.protocol.specs.State.{read_of, the_read};
ghost use Rattle.rows.specs.Rows.{reading};
ghost use Rattle.service.specs.Asking.{AskedAgain};
ghost use Rattle.protocol.specs.Refusals.{refusal, read_item};
ghost use Rattle.rows.specs.Faults.{About};
ghost use Rattle.service.specs.Meaning.{meaning, answer, answer_both};
ghost use Rattle.service.specs.Bodies.{body_shown, Taken};

use super::lists::is_tangled;
use super::state::Service;
use blend::{Body, is_of_kind};
use naming::Naming;
use rows::{AtItem, Fault, ReadCall, ReadRow, about};
use store::{Store, later_version};

impl<S: Store, N: Naming> Service<S, N> {
    // Opens a read of the items; answers how many they are.
    pub fn open(&mut self, reader: u8, items: &[u8]) -> Result<u8, Fault>
        ensures { Step N.Naming.rule (meaning S.Store.view self.old) (by_reader reader (open_read items.now)) (answer result) (meaning S.Store.view self.new) }
    {
        if self.reads.row(reader)?.current.is_some() {
            return Err(Fault::ReadOpen);
        }
        if items.is_empty() || items.len() > 8 {
            return Err(Fault::List);
        }
        if is_tangled(items) {
            return Err(Fault::Item);
        }
        self.reads.rows[usize::from(reader)].open(items);
        // The check proves that no bit is lost: `try_from` would add a case that cannot come.
        Ok(items.len() as u8)
    }

    // Asks a place for the last version of its item; answers its stamp.
    pub fn first_ask(&mut self, reader: u8, place: u8) -> Result<u32, Fault>
        ensures step { Step N.Naming.rule (meaning S.Store.view self.old) (by_reader reader (first_ask place)) (answer result) (meaning S.Store.view self.new) }
        ensures carries { About (read_item (read_of (meaning S.Store.view self.old) reader) place) result }
    {
        let row = self.reads.row(reader)?;
        row.admit::<N>(ReadCall::First(place))?;
        let item = row.item(place);
        let version = about(item, self.store.last(item))?;
        self.reads.rows[usize::from(reader)].keep_first(place, version);
        Ok(version.0)
    }

    // Asks a place again for what its first asks want; answers the stamp that is then kept. As first_ask, but for the store's call and the
    // row's: what both share are calls of one line.
    pub fn second_ask(&mut self, reader: u8, place: u8) -> Result<u32, Fault>
        ensures step { Step N.Naming.rule (meaning S.Store.view self.old) (by_reader reader (second_ask place)) (answer result) (meaning S.Store.view self.new) }
        ensures carries { About (read_item (read_of (meaning S.Store.view self.old) reader) place) result }
    {
        let row = self.reads.row(reader)?;
        row.admit::<N>(ReadCall::Second(place))?;
        let version = self.ask_again(row, place)?;
        let kept = later_version(row.kept(place), version);
        self.reads.rows[usize::from(reader)].keep_second(place, version);
        Ok(kept.0)
    }

    // Picks among the stamps that a place of a reader's open read wants.
    fn ask_again(&self, row: &ReadRow, place: u8) -> Result<(u32, u64, u64), AtItem>
        ensures { AskedAgain N.Naming.rule (S.Store.view self.now.store) (the_read (reading row.now)) place result }
    {
        let item = row.item(place);
        about(item, self.store.pick(item, row.wanted::<N>(place)))
    }

    // What a place of a finished read shows: stamp and code.
    pub fn take(&self, reader: u8, place: u8) -> Result<(u32, u64), Fault>
        ensures { Step N.Naming.rule (meaning S.Store.view self.now) (by_reader reader (take place)) (answer_both result) (meaning S.Store.view self.now) }
    {
        let row = self.reads.row(reader)?;
        row.admit::<N>(ReadCall::Take(place))?;
        let (stamp, code, _) = row.kept(place);
        Ok((stamp, code))
    }

    // What a place of a finished read shows, as a body of the kind B: absent for the blank and for a code of no such body.
    pub fn take_as<B: Body + Drop>(&self, reader: u8, place: u8) -> Result<Option<B>, Fault>
        ensures { Taken (refusal N.Naming.rule (meaning S.Store.view self.now) (by_reader reader (take place))) (body_shown B.Body.kinds B.Body.decodes (read_of (meaning S.Store.view self.now) reader) place) result }
    {
        let row = self.reads.row(reader)?;
        row.admit::<N>(ReadCall::Take(place))?;
        if !is_of_kind(row.item(place), B::kind()) {
            return Err(Fault::Kind);
        }
        let (stamp, code, _) = row.kept(place);
        if stamp == 0 {
            return Ok(None);
        }
        let Some(body) = B::decode(code) else {
            return Ok(None);
        };
        Ok(Some(body))
    }

    // Ends a read, finished or not; answers how many asks it made.
    pub fn release(&mut self, reader: u8) -> Result<u8, Fault>
        ensures { Step N.Naming.rule (meaning S.Store.view self.old) (by_reader reader release) (answer result) (meaning S.Store.view self.new) }
    {
        let row = self.reads.row(reader)?;
        row.admit::<N>(ReadCall::Release)?;
        let asks = row.asks();
        self.reads.rows[usize::from(reader)].end();
        Ok(asks)
    }
}
