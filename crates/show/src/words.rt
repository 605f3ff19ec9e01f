// The words that a program is started with.
ghost use Rattle.std.specs.Prelude.{◌≡◌};
ghost use Rattle.show.specs.Words.{word_of};

use std::env::{Env, FillError};

// How many words the program was started with, its own name among them.
pub fn count(rt: &impl Env) -> usize {
    for i in 0..usize::MAX {
        if let Err(FillError::NotPresent) = rt.arg(i, &mut []) {
            return i;
        }
    }
    usize::MAX
}

// The number below 2^32 that a word says in decimal digits. (`parse` would take a sign too.)
pub fn number(word: &[u8]) -> Option<u32>
    ensures { result ≡ word_of word.now }
{
    if word.is_empty() {
        return None;
    }
    let mut number: u32 = 0;
    for digit in word {
        if !digit.is_ascii_digit() {
            return None;
        }
        number = number
            .checked_mul(10)?
            .checked_add(u32::from(*digit - b'0'))?;
    }
    Some(number)
}

// The number that word i says. A word that is longer than the buffer says none.
pub fn at(rt: &impl Env, i: usize) -> Option<u32> {
    let mut buffer = [0u8; 4096];
    match rt.arg(i, &mut buffer) {
        Ok(n) => number(&buffer[..n]),
        Err(_) => None,
    }
}
