// Which calls of its reader a row admits.
ghost use Rattle.std.specs.Prelude.{◌≡◌, ℕ, ◌≤◌, length};
ghost use Rattle.blend.specs.Refusals.{first_of};
ghost use Rattle.protocol.specs.State.{the_read};
ghost use Rattle.rows.specs.Faults.{refusal_in, About};
ghost use Rattle.rows.specs.Rows.{read_in, reading};
ghost use Rattle.rows.specs.ReadCalls.{read_tests, first_tests_at, second_tests_at, take_tests_at};

use super::fault::Fault;
use super::read::{OpenRead, ReadRow};
use naming::Naming;

#[derive(Clone, Copy, PartialEq, Eq, Debug)]
pub enum ReadCall {
    First(u8),
    Second(u8),
    Take(u8),
    Release,
}

impl ReadRow {
    // How many items the read lists; 0 without one.
    pub fn len(&self) -> u8
        ensures value { result ≡ length (the_read (reading self.now)).items }
        ensures few { result ≤ 8 }
    {
        self.current.as_ref().map_or(0, |read| read.count)
    }

    // Whether the row admits the call, or why it refuses it.
    pub fn admit<N: Naming>(&self, call: ReadCall) -> Result<(), Fault>
        ensures answer { first_of (read_tests N.Naming.rule (reading self.now) call) ≡ refusal_in result }
        ensures few { length (the_read (reading self.now)).items ≤ 8 }
        ensures own { (i : ℕ) → About i result }
    {
        match (&self.current, call) {
            (None, _) => Err(Fault::NoRead),
            (Some(read), ReadCall::First(place)) => read.admit_first(place),
            (Some(read), ReadCall::Second(place)) => read.admit_second::<N>(place),
            (Some(read), ReadCall::Take(place)) => read.admit_take::<N>(place),
            (Some(_), ReadCall::Release) => Ok(()),
        }
    }
}

impl OpenRead {
    fn admit_first(&self, place: u8) -> Result<(), Fault>
        ensures answer { first_of (first_tests_at (read_in self.now) place) ≡ refusal_in result }
        ensures own { (i : ℕ) → About i result }
    {
        if place >= self.count {
            return Err(Fault::Place);
        }
        if self.first(place).is_some() {
            return Err(Fault::Asked);
        }
        Ok(())
    }

    fn admit_second<N: Naming>(&self, place: u8) -> Result<(), Fault>
        ensures answer { first_of (second_tests_at N.Naming.rule (read_in self.now) place) ≡ refusal_in result }
        ensures own { (i : ℕ) → About i result }
    {
        if place >= self.count {
            return Err(Fault::Place);
        }
        if !self.all_made() {
            return Err(Fault::FirstMissing);
        }
        if !self.is_due::<N>(place) {
            return Err(Fault::NotDue);
        }
        Ok(())
    }

    fn admit_take<N: Naming>(&self, place: u8) -> Result<(), Fault>
        ensures answer { first_of (take_tests_at N.Naming.rule (read_in self.now) place) ≡ refusal_in result }
        ensures own { (i : ℕ) → About i result }
    {
        if place >= self.count {
            return Err(Fault::Place);
        }
        if !self.is_finished::<N>() {
            return Err(Fault::Unfinished);
        }
        Ok(())
    }
}
