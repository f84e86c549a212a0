// The refusals by name. Each has its number in the table of replies.

#![tactic(auto)]

use std::error::Error;
use std::fmt;

// Why a call is turned down: what of the image, of what is asked, of a text or of the room lent breaks its rule.
#[derive(Clone, Copy, Debug, PartialEq, Eq)]
pub enum Refusal {
    ImageLength = 1,
    Checks = 2,
    Layout = 3,
    Letters = 4,
    Pairs = 5,
    Tables = 6,
    Columns = 7,
    Entries = 8,
    WordLength = 9,
    WordLetters = 10,
    PathLength = 11,
    PathLinks = 12,
    Pairing = 13,
    FormLetters = 14,
    SeveralWays = 15,
    TooManyBlocks = 16,
    TargetLength = 17,
    RuleTexts = 19,
    UnknownPairs = 20,
    CodePoints = 23,
    NoRoom = 24,
}

impl Refusal {
    ghost use Rattle.std.specs.Prelude.{◌≡◌, ◌<◌};
    ghost use Rattle.refusal.specs.Numbers.{number_of};

    pub fn number(self) -> u8
        ensures number { result ≡ number_of self }
        ensures few { result < 25 }
    {
        self as u8
    }
}

impl fmt::Display for Refusal {
    fn fmt<W: fmt::Write>(&self, f: &mut fmt::Formatter<W>) -> fmt::Result {
        write!(f, "refused {}", self.number())
    }
}

impl Error for Refusal {}
