// What each kind of packet says. Byte strings are borrowed: from the bytes received, or from whoever writes.

// The first byte of each kind. A rule of the project asks for slice patterns, where constants can stand and variants cannot.
pub(crate) const REQUEST: u8 = 1;

pub(crate) const ANSWER: u8 = 2;

pub(crate) const DATA: u8 = 3;

pub(crate) const KEY: u8 = 4;

// The most bytes that a payload can have.
pub const MAX_PAYLOAD: usize = 64;

// A node asks to join.
#[derive(Clone, Copy, Debug, PartialEq, Eq)]
pub struct Request<'a> {
    pub nonce: &'a [u8; 8],
}

impl Request<'_> {
    pub const LENGTH: usize = 9;
}

// A base answers with its time, the last key disclosed, that key's interval and when it began, how long an interval
// lasts, and the disclosure delay.
#[derive(Clone, Copy, Debug, PartialEq, Eq)]
pub struct Answer<'a> {
    pub time: u64,
    pub key: &'a [u8; 16],
    pub interval: u16,
    pub start: u64,
    pub duration: u32,
    pub delay: u8,
    pub tag: &'a [u8; 8],
}

impl Answer<'_> {
    pub const LENGTH: usize = 48;
}

// An order of a base, with its running number in the interval.
#[derive(Clone, Copy, Debug, PartialEq, Eq)]
pub struct Data<'a> {
    pub interval: u16,
    pub number: u8,
    pub payload: &'a [u8],
    pub tag: &'a [u8; 8],
}

impl Data<'_> {
    // The length where the payload is empty.
    pub const LEAST: usize = 12;

    // The length where the payload is longest. No other packet is longer.
    pub const MOST: usize = 76;
}

// A base discloses the key of an interval.
#[derive(Clone, Copy, Debug, PartialEq, Eq)]
pub struct Disclosure<'a> {
    pub interval: u16,
    pub key: &'a [u8; 16],
}

impl Disclosure<'_> {
    pub const LENGTH: usize = 19;
}

#[derive(Clone, Copy, Debug, PartialEq, Eq)]
pub enum Packet<'a> {
    Request(Request<'a>),
    Answer(Answer<'a>),
    Data(Data<'a>),
    Key(Disclosure<'a>),
}
