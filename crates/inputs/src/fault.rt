// What keeps a program from its answer, told to the operator in words.
ghost use Rattle.std.specs.Prelude.{◌≡◌, ◌≢◌, MatchResult};
ghost use Rattle.std.specs.IoError.{error_kind};
ghost use Rattle.std.specs.Process.{exit_status};
ghost use Rattle.inputs.specs.declared.fault.Fault.TheVariants.{NoMemory, Refused};

use refusal::{Numbered, Refusal};
use std::alloc::AllocError;
use std::io::ErrorKind;
use std::process::ExitCode;
use std::{fmt, io};

#[derive(Clone, Copy)]
pub enum Fault {
    KeyUnread(io::Error),
    // So many bytes were read; one more than a key has may be many more.
    KeyLength(usize),
    InputUnread(io::Error),
    // The input has more bytes than these.
    InputTooLong(usize),
    Refused(Refusal),
    NoMemory,
    Unwritten(io::Error),
}

impl Fault {
    // Want of memory, else the fault that the caller names: a value, since calling a closure would need a `requires`.
    pub fn of(e: io::Error, other: Fault) -> Fault
        ensures memory { error_kind e ≡ ErrorKind.OutOfMemory → result ≡ NoMemory }
        ensures other { error_kind e ≢ ErrorKind.OutOfMemory → result ≡ other }
    {
        match e.kind() {
            ErrorKind::OutOfMemory => Fault::NoMemory,
            _ => other,
        }
    }
}

impl fmt::Display for Fault {
    fn fmt<W: fmt::Write>(&self, f: &mut fmt::Formatter<W>) -> fmt::Result {
        match self {
            Fault::KeyUnread(e) => write!(
                f,
                "pair.key cannot be read: {e}; it must be in this folder, and have 16 bytes"
            ),
            Fault::KeyLength(length) if *length > 16 => f.write_str(
                "pair.key must have 16 bytes, and has more",
            ),
            Fault::KeyLength(length) => write!(f, "pair.key must have 16 bytes, and has {length}"),
            Fault::InputUnread(e) => write!(f, "standard input cannot be read: {e}"),
            Fault::InputTooLong(longest) => {
                let number = Refusal::NotACapture.number();
                write!(
                    f,
                    "refused {number}, the input has more than {longest} bytes"
                )
            }
            Fault::Refused(refusal) => write!(f, "{}", Numbered(*refusal)),
            Fault::NoMemory => f.write_str("there is not enough memory"),
            Fault::Unwritten(e) => write!(f, "standard output cannot be written: {e}"),
        }
    }
}

impl From<AllocError> for Fault {
    ghost from_gives = { λ _ fault. fault ≡ NoMemory };

    fn from(_e: AllocError) -> Fault {
        Fault::NoMemory
    }
}

impl From<Refusal> for Fault {
    ghost from_gives = { λ refusal fault. fault ≡ Refused refusal };

    fn from(refusal: Refusal) -> Fault {
        Fault::Refused(refusal)
    }
}

// Tells a fault on standard error behind the program's name, and hands the result on. A failed write is let go.
pub fn tell(rt: &impl Eprint, program: &str, res: Result<(), Fault>) -> Result<(), Fault>
    ensures { result ≡ res }
{
    res.inspect_err(|fault| {
        let _ = eprintln!(rt; "{program}: {fault}");
    })
}

// The status that a program ends with: 0, or 1 where a fault kept it from its answer.
pub fn status(res: Result<(), Fault>) -> ExitCode
    ensures { MatchResult res (λ done. exit_status result ≡ 0) (λ fault. exit_status result ≡ 1) }
{
    match res {
        Ok(()) => ExitCode::SUCCESS,
        Err(_) => ExitCode::FAILURE,
    }
}
