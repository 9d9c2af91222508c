// The records of a journal: a version that was put, or the stamp that an item's last stamp was raised to.
ghost use Rattle.std.specs.Prelude.{◌≡◌, [], ◌∷◌};
ghost use Rattle.journal.specs.Records.{first, kind_of, size};
ghost use Rattle.journal.specs.Held.{lookup, last_from};

use blend::later_stamp;
use layout::number_at;

// Fields that a frame's request has too: a record asks no question, and a journal stands on no frames.
#[derive(Clone, Copy, PartialEq, Eq, Debug)]
pub(crate) enum Record {
    Put {
        item: u8,
        stamp: u32,
        code: u64,
        mark: u64,
    },
    Commit {
        item: u8,
        stamp: u32,
    },
}

// The record that bytes begin with, absent where they spell none.
pub(crate) fn head(rest: &[u8]) -> Option<Record>
    ensures { result ≡ first rest.now }
{
    match rest {
        [1, item, ..] => {
            let stamp = number_at(rest, 2)?;
            let code = number_at(rest, 6)?;
            let mark = number_at(rest, 14)?;
            Some(Record::Put {
                item: *item,
                stamp,
                code,
                mark,
            })
        }
        [2, item, ..] => {
            let stamp = number_at(rest, 2)?;
            Some(Record::Commit { item: *item, stamp })
        }
        _ => None,
    }
}

impl Record {
    // The byte that a record of its kind begins with.
    pub(crate) fn kind(self) -> u8
        ensures { result ≡ kind_of self }
    {
        match self {
            Record::Put { .. } => 1,
            Record::Commit { .. } => 2,
        }
    }

    // How many bytes it takes.
    pub(crate) fn size(self) -> usize
        ensures { result ≡ size self }
    {
        match self {
            Record::Put { .. } => 22,
            Record::Commit { .. } => 6,
        }
    }

    // Code and mark, where it is the version of an item with a stamp.
    pub(crate) fn held(self, item: u8, stamp: u32) -> Option<(u64, u64)>
        ensures { result ≡ lookup (self ∷ []) item stamp }
    {
        match self {
            Record::Put {
                item: i,
                stamp: s,
                code,
                mark,
            } if i == item && s == stamp => Some((code, mark)),
            _ => None,
        }
    }

    // The last stamp of an item behind the record, where it was `last` before.
    pub(crate) fn raise(self, item: u8, last: u32) -> u32
        ensures { result ≡ last_from last (self ∷ []) item }
    {
        match self {
            Record::Commit { item: i, stamp } if i == item => later_stamp(last, stamp),
            _ => last,
        }
    }
}
