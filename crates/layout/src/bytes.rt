// Bytes and big-endian numbers of a slice. A byte past the end is read as 0.
ghost use Rattle.std.specs.Prelude.{◌≡◌, ℕ, ◌+◌, ◌*◌, ◌<◌, ◌≤◌, ◌^◌, ltb, length, get_or, if◌then◌else◌};
ghost use Rattle.laws.specs.BigEndian.{be};
ghost use Rattle.laws.specs.First.{first};

// The byte at `at`.
pub(crate) fn byte(file: &[u8], at: usize) -> u8
    ensures { result ≡ get_or file.now at 0 }
{
    if at < file.len() { file[at] } else { 0 }
}

// The byte at `at` where there is such a field, or else 0.
pub(crate) fn byte_if(there: bool, file: &[u8], at: usize) -> u8
    ensures { result ≡ (if there then get_or file.now at 0 else 0) }
{
    if there { byte(file, at) } else { 0 }
}

// The 16-bit number at `at`, where the file has it whole.
fn two_in(file: &[u8], at: usize) -> u16
    requires { at + 2 ≤ length file.now }
    ensures { result ≡ be file.now at 2 }
{
    u16::from_be_bytes([file[at], file[at + 1]])
}

// The 32-bit number at `at`, where the file has it whole.
pub(crate) fn four_in(file: &[u8], at: usize) -> u32
    requires { at + 4 ≤ length file.now }
    ensures { result ≡ be file.now at 4 }
{
    u32::from_be_bytes([file[at], file[at + 1], file[at + 2], file[at + 3]])
}

// The 64-bit number at `at`, where the file has it whole.
pub(crate) fn eight_in(file: &[u8], at: usize) -> u64
    requires { at + 8 ≤ length file.now }
    ensures { result ≡ be file.now at 8 }
{
    u64::from_be_bytes([
        file[at],
        file[at + 1],
        file[at + 2],
        file[at + 3],
        file[at + 4],
        file[at + 5],
        file[at + 6],
        file[at + 7],
    ])
}

// The 30 bytes from `at` on, as many as the longest record has: what a file is too short for is read out of these, as from a file that has it whole.
pub(crate) fn padded(file: &[u8], at: usize) -> [u8; 30]
    requires { at < 2 ^ 31 }
    ensures { (k : ℕ) → k < 30 → get_or result k 0 ≡ get_or file.now (at + k) 0 }
{
    std::array::from_fn(|k| byte(file, at + k))
}

// The 16-bit number at `at`: the header has such numbers, and a grant its days. A short file is handed on by a copy of the reference, as in the records.
// (Two widths are two types: a function each, with one test of the length.)
pub(crate) fn two(file: &[u8], at: usize) -> u16
    requires { at < 2 ^ 31 }
    ensures { result ≡ be file.now at 2 }
{
    if file.len() < at + 2 {
        let here = file;
        let bytes = padded(here, at);
        return two_in(&bytes[..30], 0);
    }
    two_in(file, at)
}

// The 16-bit number at `at` where there is such a field, or else another.
pub(crate) fn two_or(there: bool, file: &[u8], at: usize, other: u16) -> u16
    requires { at < 2 ^ 31 }
    ensures { result ≡ (if there then be file.now at 2 else other) }
{
    if there { two(file, at) } else { other }
}

// The 32-bit number at `at`, in the same way.
pub(crate) fn four(file: &[u8], at: usize) -> u32
    requires { at < 2 ^ 31 }
    ensures { result ≡ be file.now at 4 }
{
    if file.len() < at + 4 {
        let here = file;
        let bytes = padded(here, at);
        return four_in(&bytes[..30], 0);
    }
    four_in(file, at)
}

// The 64-bit number at `at`, in the same way.
pub(crate) fn eight(file: &[u8], at: usize) -> u64
    requires { at < 2 ^ 31 }
    ensures { result ≡ be file.now at 8 }
{
    if file.len() < at + 8 {
        let here = file;
        let bytes = padded(here, at);
        return eight_in(&bytes[..30], 0);
    }
    eight_in(file, at)
}

// Of n 32-bit numbers from `at` on, which the file has whole, the first that is over `most`, or n where none is.
pub(crate) fn first_over_in(file: &[u8], at: usize, n: usize, most: u32) -> usize
    requires { (at < 2 ^ 31) × (n < 256) × (at + 4 * n ≤ length file.now) }
    ensures { result ≡ first (λ p. ltb most (be file.now (at + 4 * p) 4)) n }
{
    for p in 0..n {
        if most < four_in(file, at + 4 * p) {
            return p;
        }
    }
    n
}
