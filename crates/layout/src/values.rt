// The header of a plan file.
ghost use Rattle.std.specs.Prelude.{◌≡◌};
ghost use Rattle.format.specs.Layout.{header_of};

use crate::bytes;
use night::{Header, versions};

// The header's values.
pub fn header(file: &[u8]) -> Header
    ensures { result ≡ header_of file.now }
{
    let version = bytes::two(file, 3);
    Header {
        version,
        subjects: bytes::byte(file, 5),
        relations: bytes::byte(file, 6),
        attributes: bytes::byte(file, 7),
        nodes: bytes::byte(file, 8),
        grants: bytes::two(file, 9),
        steps: bytes::four(file, 11),
        user: bytes::byte_if(versions::delivers(version), file, 15),
        pairs: bytes::byte_if(versions::has_pairs(version), file, 16),
        day: bytes::two_or(versions::has_days(version), file, 17, 0),
    }
}
