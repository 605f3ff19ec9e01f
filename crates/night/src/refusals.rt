// Why a file, a question, an offer or a room is refused, and where: document 01's numbers by name.
ghost use Rattle.std.specs.Prelude.{◌≡◌};
ghost use Rattle.night.specs.Refusals.{number_of};

use std::fmt;

// The refusals in the order of their numbers.
#[derive(Clone, Copy, Debug, PartialEq, Eq)]
pub enum Reason {
    NoMark = 1,
    UnknownVersion,
    WrongLength,
    BadCounts,
    BadRelation,
    BadGrant,
    BlindOwner,
    BadShape,
    BadAttributes,
    BadNeeded,
    BadPrice,
    NoCandidate,
    TooFewSteps,
    BadOffer,
    ShortRoom,
    NotAsked,
    KeptFromUser,
}

impl Reason {
    // Its number.
    pub fn number(self) -> u8
        ensures { result ≡ number_of self }
    {
        self as u8
    }
}

// A refusal: its reason, and the place of what is refused.
#[derive(Clone, Copy, Debug, PartialEq, Eq)]
pub struct Refusal {
    pub reason: Reason,
    pub place: u32,
}

impl fmt::Display for Refusal {
    fn fmt<W: fmt::Write>(&self, f: &mut fmt::Formatter<W>) -> fmt::Result {
        let number = self.reason.number();
        let place = self.place;
        write!(f, "refused {number} place {place}")
    }
}
