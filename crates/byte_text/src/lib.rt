// Bytes as text that people read: as hexadecimal text, or in quotes where they are text themselves.

#![tactic(auto)]

ghost use Rattle.std.specs.Prelude.{◌≡◌, IfOk, vec_items};
ghost use Rattle.std.specs.Option.{option_map};
ghost use Rattle.byte_text.specs.Text.{byte_of, bytes_of};
ghost use Rattle.byte_text.specs.Plain.{plain, all_plain};

use std::alloc::{AllocError, Global};
use std::fmt;

// Bytes that print as hexadecimal text.
#[derive(Clone, Copy)]
pub struct Hex<'a>(pub &'a [u8]);

impl fmt::Display for Hex<'_> {
    fn fmt<W: fmt::Write>(&self, f: &mut fmt::Formatter<W>) -> fmt::Result {
        for b in self.0 {
            write!(f, "{b:02x}")?;
        }
        Ok(())
    }
}

fn is_plain(byte: u8) -> bool
    ensures { result ≡ plain byte }
{
    (b' '..=b'~').contains(&byte) && byte != b'"' && byte != b'\\'
}

// Whether bytes can stand between double quotes as they are.
pub fn is_text(bytes: &[u8]) -> bool
    ensures { result ≡ all_plain bytes.now }
{
    bytes.iter().all(|byte| is_plain(*byte))
}

// Bytes that print in double quotes where they are text, else as hexadecimal text.
#[derive(Clone, Copy)]
pub struct Readable<'a>(pub &'a [u8]);

impl fmt::Display for Readable<'_> {
    fn fmt<W: fmt::Write>(&self, f: &mut fmt::Formatter<W>) -> fmt::Result {
        let bytes = self.0;
        if !is_text(bytes) {
            return write!(f, "{}", Hex(bytes));
        }
        f.write_str("\"")?;
        for byte in bytes {
            f.write_char(char::from(*byte))?;
        }
        f.write_str("\"")
    }
}

fn byte(high: u8, low: u8) -> Option<u8>
    ensures { result ≡ byte_of high low }
{
    let high = char::from(high).to_digit(16)?;
    let low = char::from(low).to_digit(16)?;
    Some((high * 16 + low) as u8)
}

// The bytes that a text writes, or `None` where it is not pairs of digits.
#[tactic(auto, using(crate::proofs::Steps::reading))]
pub fn parse(heap: Global, text: &str) -> Result<Option<Vec<u8>>, AllocError>
    ensures { IfOk result (λ bytes. option_map vec_items bytes ≡ bytes_of text.now) }
{
    let mut bytes = Vec::new(heap);
    let mut rest = text.as_bytes();
    while let [high, low, behind @ ..] = rest {
        let Some(b) = byte(*high, *low) else {
            return Ok(None);
        };
        bytes.push(b)?;
        rest = behind;
    }
    Ok(rest.is_empty().then_some(bytes))
}
