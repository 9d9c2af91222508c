// One record more: first its body, behind a kind byte that stays 00, and last the kind byte, which makes it a record.
ghost use Rattle.std.specs.Prelude.{◌≡◌, ◌+◌, ◌≤◌, length, slice_set};
ghost use Rattle.layout.specs.Places.{over};
ghost use Rattle.journal.specs.Records.{size, kind_of, body_of, appended, Stands};

use super::record::Record;
use layout::{commit_body, lay_at, put_body};

// Lays a record's body behind the place of its kind byte.
fn write_body(bytes: &mut [u8], end: usize, rec: Record)
    requires { end + size rec ≤ length bytes.old }
    ensures after { bytes.new ≡ over (end + 1) (body_of rec) bytes.old }
    ensures stands { Stands end rec bytes.new }
{
    match rec {
        Record::Put {
            item,
            stamp,
            code,
            mark,
        } => {
            lay_at(bytes, end + 1, &put_body(item, stamp, code, mark));
        }
        Record::Commit { item, stamp } => {
            lay_at(bytes, end + 1, &commit_body(item, stamp));
        }
    }
}

// Stores the kind byte of a record whose body already stands behind its place.
fn write_kind(bytes: &mut [u8], end: usize, rec: Record)
    requires { Stands end rec bytes.old }
    ensures { bytes.new ≡ slice_set bytes.old end (kind_of rec) }
{
    bytes[end] = rec.kind();
}

// Writes a record at the end of the others.
pub(crate) fn append(bytes: &mut [u8], end: usize, rec: Record)
    requires { end + size rec ≤ length bytes.old }
    ensures { bytes.new ≡ appended end rec bytes.old }
{
    write_body(bytes, end, rec);
    write_kind(bytes, end, rec);
}
