// The refusals of the carriage link: one named case for each question that a call can answer with no.

#![tactic(auto)]

ghost use Rattle.std.specs.Prelude.{◌≡◌, Some};
ghost use Rattle.refusal.specs.Meaning.{meaning_of, told_of};
ghost use Rattle.refusal.specs.Number.{number_of};

use std::fmt;

#[derive(Clone, Copy, PartialEq, Eq, Debug)]
pub enum Refusal {
    NotThisKind,
    WrongLength,
    ReadingOutOfOrder,
    WrongAnswerTag,
    BadSchedule,
    CommitmentNotDue,
    IntervalOutOfRange,
    TooLate,
    AlreadyHeld,
    NoFreePlace,
    KeyNotNewer,
    KeyNotDue,
    KeyNotOfChain,
    BufferTooShort,
    OutOfLimits,
    NoSuchInterval,
    TooLong,
    IntervalFull,
    NoKeyDue,
    NoKeyLeft,
    NotACapture,
}

impl Refusal {
    // The number by which documents and programs name the refusal.
    pub fn number(self) -> u8
        ensures { result ≡ number_of self }
    {
        match self {
            Refusal::NotThisKind => 1,
            Refusal::WrongLength => 2,
            Refusal::ReadingOutOfOrder => 3,
            Refusal::WrongAnswerTag => 4,
            Refusal::BadSchedule => 5,
            Refusal::CommitmentNotDue => 6,
            Refusal::IntervalOutOfRange => 7,
            Refusal::TooLate => 8,
            Refusal::AlreadyHeld => 9,
            Refusal::NoFreePlace => 10,
            Refusal::KeyNotNewer => 11,
            Refusal::KeyNotDue => 12,
            Refusal::KeyNotOfChain => 13,
            Refusal::BufferTooShort => 14,
            Refusal::OutOfLimits => 15,
            Refusal::NoSuchInterval => 16,
            Refusal::TooLong => 17,
            Refusal::IntervalFull => 18,
            Refusal::NoKeyDue => 19,
            Refusal::NoKeyLeft => 20,
            Refusal::NotACapture => 21,
        }
    }
}

// The refusal in plain words, for an operator.
impl fmt::Display for Refusal {
    ghost output = { λ r. Some (meaning_of r) };

    fn fmt<W: fmt::Write>(&self, f: &mut fmt::Formatter<W>) -> fmt::Result {
        match self {
            Refusal::NotThisKind => f.write_str("the packet is of no kind that this call takes"),
            Refusal::WrongLength => f.write_str("the packet has not the length of its kind"),
            Refusal::ReadingOutOfOrder => f.write_str(
                "the clock reading is 2^52 or more, or before the latest one",
            ),
            Refusal::WrongAnswerTag => f.write_str(
                "the answer's tag is not right under the pair's key",
            ),
            Refusal::BadSchedule => f.write_str("the answer's schedule is outside its limits"),
            Refusal::CommitmentNotDue => f.write_str(
                "the answer's key could not be public yet at the answer's time",
            ),
            Refusal::IntervalOutOfRange => f.write_str("the interval is not 1 to 4096"),
            Refusal::TooLate => f.write_str(
                "the packet's interval can already be public: too late to trust",
            ),
            Refusal::AlreadyHeld => f.write_str("an equal packet is held already"),
            Refusal::NoFreePlace => f.write_str("all places for held packets are taken"),
            Refusal::KeyNotNewer => f.write_str(
                "the key's interval is not above that of the newest key",
            ),
            Refusal::KeyNotDue => f.write_str("the key's interval cannot be due yet"),
            Refusal::KeyNotOfChain => f.write_str("the key does not step down to the newest key"),
            Refusal::BufferTooShort => f.write_str("the output buffer is too short"),
            Refusal::OutOfLimits => f.write_str("a parameter is outside its limits"),
            Refusal::NoSuchInterval => f.write_str(
                "the base's interval is not one of the key chain",
            ),
            Refusal::TooLong => f.write_str("the payload or the message is too long"),
            Refusal::IntervalFull => f.write_str("256 packets were made in this interval already"),
            Refusal::NoKeyDue => f.write_str("no key above the last one disclosed is due"),
            Refusal::NoKeyLeft => f.write_str("the key source has given its last key"),
            Refusal::NotACapture => f.write_str("the input is not a capture that can be replayed"),
        }
    }
}

// A refusal as a program tells it: its number, and then the words.
#[derive(Clone, Copy)]
pub struct Numbered(pub Refusal);

impl fmt::Display for Numbered {
    ghost output = { λ n. Some (told_of n.0) };

    fn fmt<W: fmt::Write>(&self, f: &mut fmt::Formatter<W>) -> fmt::Result {
        let Numbered(refusal) = *self;
        let number = refusal.number();
        write!(f, "refused {number}, {refusal}")
    }
}
