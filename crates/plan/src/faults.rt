ghost use Rattle.std.specs.Prelude.{◌≡◌, Result};
ghost use Rattle.plan.specs.Answers.{answer_of};
ghost use Rattle.plan.specs.Coded.{outcome_of};

use crate::{Answer, accepted, refused};

// Why a call refuses: the number of each is the one that a caller is told.
#[derive(Clone, Copy, Debug, PartialEq, Eq)]
pub enum Fault {
    Length = 1,
    NoOperation = 2,
    UnusedWord = 3,
    Source = 4,
    TypeNumber = 5,
    OperandTypes = 6,
    RowOrNumber = 7,
    Shapes = 8,
    Devices = 9,
    ZeroDivisor = 10,
    ResultRange = 11,
    TotalElements = 12,
    InputLength = 13,
    Room = 14,
    Flag = 15,
    Limits = 16,
    NoElement = 17,
    CutShort = 20,
    NumberTooLong = 21,
    BytesLeft = 22,
    FileHead = 23,
    FileOperation = 24,
    PackedRange = 25,
    Edition = 26,
}

// Why a call refuses, and where. The place first: in a Result it then lies where an Ok has its number, and both are read whole.
#[derive(Clone, Copy, Debug, PartialEq, Eq)]
pub struct Refusal {
    pub place: usize,
    pub fault: Fault,
}

impl Fault {
    // This fault at a place.
    pub fn at(self, place: usize) -> Refusal
        ensures { result ≡ record { fault = self; place = place } }
    {
        Refusal { fault: self, place }
    }
}

impl From<Result<u64, Refusal>> for Answer {
    ghost from_gives = { λ r a. a ≡ answer_of (λ n. n) (outcome_of (λ n. n) r) };

    fn from(ended: Result<u64, Refusal>) -> Answer {
        match ended {
            Ok(count) => accepted(count),
            Err(refusal) => refused(refusal.fault as u64, refusal.place as u64),
        }
    }
}
