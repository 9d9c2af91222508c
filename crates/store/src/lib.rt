// The interface of a station's store of versions: what it means, and what each of its four calls does to that meaning.

#![tactic(auto)]

ghost use Rattle.std.specs.Prelude.{◌≡◌, ℕ, false, not, Option, is_some, Ok, Err, if◌then◌else◌};
ghost use Rattle.store.specs.declared.StoreFault.TheVariants.{Clash};
ghost use Rattle.store.specs.Faults.{number_of, fault_numbered};
ghost use Rattle.store.specs.Meaning.{Content, View, LastHeld, later_version, version_with, picked, content_at};
ghost use Rattle.store.specs.Tests.{Tested, clashes, question_tests, version_tests};
ghost use Rattle.store.specs.Outcomes.{PutOutcome, CommitOutcome, AnswerOutcome, LastOutcome, PickOutcome};
ghost use Rattle.store.specs.Choice.{PicksTheLatest};
ghost use Rattle.store.specs.Room.{SpaceLasts};

mod reasons;

use blend::is_later;

// Why a store refuses.
#[derive(Clone, Copy, PartialEq, Eq, Debug)]
pub enum StoreFault {
    NoItem = 1,
    NoStamp = 2,
    Clash = 3,
    Full = 4,
    NotHeld = 5,
}

impl StoreFault {
    pub fn number(self) -> u8
        ensures { result ≡ number_of self }
    {
        self as u8
    }
}

// A number that no store refuses with.
#[derive(Clone, Copy, PartialEq, Eq, Debug)]
pub struct UnknownNumber;

impl TryFrom<u8> for StoreFault {
    type Error = UnknownNumber;

    ghost try_from_gives = { λ number r. r ≡ fault_numbered number };

    fn try_from(number: u8) -> Result<StoreFault, UnknownNumber> {
        match number {
            1 => Ok(StoreFault::NoItem),
            2 => Ok(StoreFault::NoStamp),
            3 => Ok(StoreFault::Clash),
            4 => Ok(StoreFault::Full),
            5 => Ok(StoreFault::NotHeld),
            _ => Err(UnknownNumber),
        }
    }
}

// Items, stamps, codes and marks are plain numbers in every call and every answer, as frames carry them.
pub trait Store {
    // What the store means: the versions held, the last stamps, the spaces.
    ghost view: { Self → View };

    // Keeps a version; answers whether it is new, or was held alike.
    fn put(&mut self, item: u8, stamp: u32, code: u64, mark: u64) -> Result<bool, StoreFault>
        ensures { PutOutcome (view self.old) (view self.new) item stamp code mark result };

    // Makes a held version the item's last, unless a later one is; answers whether the last stamp rose.
    fn commit(&mut self, item: u8, stamp: u32) -> Result<bool, StoreFault>
        ensures { CommitOutcome (view self.old) (view self.new) item stamp result };

    // Stamp, code and mark of the item's last version, or the blank.
    fn last(&self, item: u8) -> Result<(u32, u64, u64), StoreFault>
        ensures { LastOutcome (view self.now) item result };

    // Stamp, code and mark of the held version with the latest of the stamps, or the blank.
    fn pick(&self, item: u8, stamps: [u32; 8]) -> Result<(u32, u64, u64), StoreFault>
        ensures { PickOutcome (view self.now) item stamps result };

    // A last stamp is 0 or held.
    ghost last_held: { (s : Self) → LastHeld (view s) };
}

// Versions that are found by item and stamp. None has stamp 0.
pub trait Versions {
    // Code and mark by item and stamp.
    ghost held: { Self → ℕ → ℕ → Option Content };

    fn find(&self, item: u8, stamp: u32) -> Option<(u64, u64)>
        ensures { result ≡ held self.now item stamp };

    ghost none_blank: { (v : Self) (i : ℕ) → is_some (held v i 0) ≡ false };
}

// A store's answer to a pick, from the versions that it finds.
pub fn pick_from<V: Versions>(
    versions: &V,
    item: u8,
    stamps: [u32; 8],
) -> Result<(u32, u64, u64), StoreFault>
    ensures { AnswerOutcome item (picked (V.held versions.now item) stamps) result }
{
    check_item(item)?;
    let best = stamps.iter().fold((0, 0, 0), |best, &stamp| {
        later_version(best, version_with(stamp, versions.find(item, stamp)))
    });
    Ok(best)
}

// Code and mark of the version that a store holds with a stamp; none for item 0 and stamp 0, which are no version's.
pub fn held_at<S: Store>(store: &S, item: u8, stamp: u32) -> Option<(u64, u64)>
    ensures { result ≡ content_at (S.view store.now) item stamp }
{
    match store.pick(item, [stamp; 8]) {
        Ok((0, _, _)) | Err(_) => None,
        Ok((_, code, mark)) => Some((code, mark)),
    }
}

// The test of each call: item 0 is refused.
pub fn check_item(item: u8) -> Result<(), StoreFault>
    ensures { Tested (question_tests item) result }
{
    if item == 0 {
        Err(StoreFault::NoItem)
    } else {
        Ok(())
    }
}

// The first tests of put and commit: item 0 is refused, and then stamp 0.
pub fn check_version(item: u8, stamp: u32) -> Result<(), StoreFault>
    ensures { Tested (version_tests item stamp) result }
{
    check_item(item)?;
    if stamp == 0 {
        Err(StoreFault::NoStamp)
    } else {
        Ok(())
    }
}

// Whether a version is new, by what is held under its item and stamp: held alike it is not, and another code or mark is refused.
pub fn is_new(held: Option<(u64, u64)>, code: u64, mark: u64) -> Result<bool, StoreFault>
    ensures { result ≡ if clashes held code mark then Err Clash else Ok (not (is_some held)) }
{
    match held {
        None => Ok(true),
        Some((c, m)) if c == code && m == mark => Ok(false),
        Some(_) => Err(StoreFault::Clash),
    }
}

// The version with a stamp, by what is held under it: the blank where nothing is, three zeros and no Option, as each layer answers it.
pub fn version_with(stamp: u32, held: Option<(u64, u64)>) -> (u32, u64, u64)
    ensures { result ≡ version_with stamp held }
{
    match held {
        Some((code, mark)) => (stamp, code, mark),
        None => (0, 0, 0),
    }
}

// The later of two versions, the first where neither is.
pub fn later_version(best: (u32, u64, u64), next: (u32, u64, u64)) -> (u32, u64, u64)
    ensures { result ≡ later_version best next }
{
    if is_later(next.0, best.0) { next } else { best }
}

// What a pick answers is held, among the stamps, and no held one among them is later; the blank where none is held.
pub fn picks_the_latest() -> u8
    ensures { PicksTheLatest }
{
    0
}

// A store refuses for want of space only once as many new versions were accepted as the item had space; what it holds can be committed.
pub fn space_lasts() -> u8
    ensures { SpaceLasts }
{
    0
}
