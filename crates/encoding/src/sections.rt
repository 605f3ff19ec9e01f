// The sections of a plan file: bytes and records, one right behind the other.
ghost use Rattle.std.specs.Prelude.{ℕ, ◌+◌, ◌*◌, ◌<◌, ◌≤◌, length, slice_index_or};
ghost use Rattle.encoding.specs.Stored.{Stored};
ghost use Rattle.laws.specs.InOrder.{in_order};

use crate::records::Record;

// These bytes.
pub(crate) fn put(room: &mut [u8], at: usize, bytes: &[u8])
    requires { at + length bytes.now ≤ length room.old }
    ensures { Stored room.old room.new at bytes.now }
{
    room[at..at + bytes.len()].copy_from_slice(bytes);
}

// These records, as a version of the file has them.
pub(crate) fn put_records<T: Record>(room: &mut [u8], at: usize, records: &[T], version: u16)
    requires { at + T.length_of version * length records.now ≤ length room.old }
    ensures stored { Stored room.old room.new at (in_order (T.bytes_of version) records.now) }
    ensures in_range { (k : ℕ) (d : T) → k < length records.now → T.fits (slice_index_or records.now k d) }
{
    for (i, record) in records.iter().enumerate() {
        record.put(room, at + T::length(version) * i, version);
    }
}
