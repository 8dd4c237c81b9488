// Why a line cannot be read as a case, and what keeps a step from its result.
use refusal::Refusal;
use std::alloc::{AllocError, AllocFailed};
use std::fmt;

#[derive(Clone, Copy)]
pub enum Fault {
    NotText,
    NoTask,
    NoCipher,
    Words,
    BadKey,
    BadBlock,
    BadBytes,
    BadPurpose,
    BadCount,
    BadValue,
}

impl fmt::Display for Fault {
    fn fmt<W: fmt::Write>(&self, f: &mut fmt::Formatter<W>) -> fmt::Result {
        match self {
            Fault::NotText => f.write_str("the line is not text"),
            Fault::NoTask => f.write_str(
                "a case begins with rc5, adding, tag, derive, down, packet, pebbled or table",
            ),
            Fault::NoCipher => f.write_str(
                "after tag, derive, down or pebbled comes rc5 or adding",
            ),
            Fault::Words => f.write_str("the case has not as many words as its task takes"),
            Fault::BadKey => f.write_str("the key is not 32 hexadecimal digits"),
            Fault::BadBlock => f.write_str(
                "the block is not 16 hexadecimal digits for rc5, 32 for adding",
            ),
            Fault::BadBytes => f.write_str(
                "the bytes are neither pairs of hexadecimal digits nor -",
            ),
            Fault::BadPurpose => f.write_str("the purpose is not 2 hexadecimal digits"),
            Fault::BadCount => f.write_str("the count is not a number from 0 to 4294967295"),
            Fault::BadValue => f.write_str("after = comes a value"),
        }
    }
}

// What keeps a step from its result: an error of its own, or want of memory.
pub enum Trouble<E> {
    Own(E),
    Memory(AllocError),
}

// The two apart: want of memory ends the program, and the step's own result is part of the answer.
pub(crate) fn apart<T, E>(res: Result<T, Trouble<E>>) -> Result<Result<T, E>, AllocError> {
    match res {
        Ok(x) => Ok(Ok(x)),
        Err(Trouble::Own(e)) => Ok(Err(e)),
        Err(Trouble::Memory(e)) => Err(e),
    }
}

impl<E> From<AllocError> for Trouble<E> {
    fn from(e: AllocError) -> Trouble<E> {
        Trouble::Memory(e)
    }
}

impl<E, T: Drop> From<AllocFailed<T>> for Trouble<E> {
    fn from(e: AllocFailed<T>) -> Trouble<E> {
        Trouble::Memory(AllocError::from(e))
    }
}

impl From<Fault> for Trouble<Fault> {
    fn from(fault: Fault) -> Trouble<Fault> {
        Trouble::Own(fault)
    }
}

impl From<Refusal> for Trouble<Refusal> {
    fn from(refusal: Refusal) -> Trouble<Refusal> {
        Trouble::Own(refusal)
    }
}
