// Why a call is refused.
ghost use Rattle.std.specs.Prelude.{◌≡◌};
ghost use Rattle.queue.specs.Refusal.{refusal_number};

use std::error::Error;
use std::fmt;

/// The refusals of the changing and the reading calls, in the order of their numbers. The C header has the same numbers.
#[derive(Clone, Copy, PartialEq, Eq, Debug)]
pub enum Refusal {
    LimitOutOfRange = 1,
    AreaTooShort = 2,
    AreaNotSound = 3,
    OutputTooShort = 4,
    Malformed = 5,
    TooManyInputs = 6,
    TimeDeadlineElapsed = 7,
    HeightDeadlineElapsed = 8,
    LabelTooLong = 9,
    QueueFull = 10,
    ByteBudgetExhausted = 11,
    InputReserved = 12,
    NotFound = 13,
    AlreadyMined = 14,
    CounterExhausted = 15,
    NotAnImage = 16,
    WriteFailed = 17,
    ShareExhausted = 18,
    ReadAndSpent = 20,
    FeesTooLarge = 21,
    NotConvertible = 22,
}

impl Refusal {
    /// The number that the C header gives the refusal.
    pub fn number(self) -> u64
        ensures { result ≡ refusal_number self }
    {
        self as u64
    }
}

impl fmt::Display for Refusal {
    fn fmt<W: fmt::Write>(&self, f: &mut fmt::Formatter<W>) -> fmt::Result {
        f.write_str(match self {
            Refusal::LimitOutOfRange => "a limit is out of range",
            Refusal::AreaTooShort => "the area to write is too short",
            Refusal::AreaNotSound => "the area does not hold a sound queue",
            Refusal::OutputTooShort => "the output is shorter than the answer",
            Refusal::Malformed => "an argument is malformed",
            Refusal::TooManyInputs => "too many inputs, outputs or read ids",
            Refusal::TimeDeadlineElapsed => "the time deadline has elapsed",
            Refusal::HeightDeadlineElapsed => "the height deadline has elapsed",
            Refusal::LabelTooLong => "the label is too long",
            Refusal::QueueFull => "the queue is full",
            Refusal::ByteBudgetExhausted => "the byte budget is exhausted",
            Refusal::InputReserved => "an input is reserved by another record",
            Refusal::NotFound => "no record has the id",
            Refusal::AlreadyMined => "the record is mined already",
            Refusal::CounterExhausted => "the counter is exhausted",
            Refusal::NotAnImage => "the bytes are not an image",
            Refusal::WriteFailed => "the write failed",
            Refusal::ShareExhausted => "the caller's share is exhausted",
            Refusal::ReadAndSpent =>
                "a read id is spent by another record, or an input is read by one",
            Refusal::FeesTooLarge => "the fees are too large to add up",
            Refusal::NotConvertible => "the queue cannot be said in kind 01",
        })
    }
}

impl Error for Refusal {}
