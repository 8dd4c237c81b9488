// The tag of a message: cipher block chaining over any block cipher, with the message's length as the first block.
ghost use Rattle.std.specs.Prelude.{◌≡◌, ◌-◌, ◌<◌, ◌≤◌, ◌++◌, length, take, replicate, MatchResult};
ghost use Rattle.refusal.specs.declared.Refusal.TheVariants.{TooLong};
ghost use Rattle.cipher.specs.Blocks.{on_front};
ghost use Rattle.cipher.specs.Bytes.{to_be};
ghost use Rattle.chain.specs.Tag.{◌⊕◌, filled, mac as chained_mac, tagged};

use cipher::{Block, Key};
use refusal::Refusal;
use std::array;

// The longest message that is tagged.
const LONGEST: usize = 4096;

// A message that is not too long to be tagged.
#[derive(Clone, Copy)]
pub(crate) struct Message<'a> {
    bytes: &'a [u8],
    ghost within_limit: { length bytes.now ≤ 4096 },
}

impl<'a> TryFrom<&'a [u8]> for Message<'a> {
    type Error = Refusal;

    ghost try_from_gives = { λ bytes r. MatchResult r
        (λ m. m.bytes ≡ bytes)
        (λ e. (e ≡ TooLong) × (4096 < length bytes.now)) };

    fn try_from(bytes: &'a [u8]) -> Result<Message<'a>, Refusal> {
        if bytes.len() > LONGEST {
            return Err(Refusal::TooLong);
        }
        Ok(Message { bytes })
    }
}

impl<'a> From<&'a [u8; 2]> for Message<'a> {
    ghost from_gives = { λ bytes m. m.bytes.now ≡ bytes.now };

    fn from(bytes: &'a [u8; 2]) -> Message<'a> {
        Message { bytes }
    }
}

impl Message<'_> {
    fn len(self) -> u16
        ensures { result ≡ length self.entry.bytes.now }
    {
        self.bytes.len() as u16
    }
}

// A part of a message, a block or what is left, filled with zeros.
fn filled(part: &[u8]) -> [u8; 16]
    requires { length part.now ≤ 16 }
    ensures { result ≡ filled 16 part.now }
{
    let mut block = [0; 16];
    block[..part.len()].copy_from_slice(part);
    block
}

// Joins a part of a message into the front of a state by exclusive or.
fn joined(state: [u8; 16], part: &[u8]) -> [u8; 16]
    requires { length part.now ≤ 16 }
    ensures { result ≡ state ⊕ part.now }
{
    let block = filled(part);
    array::from_fn(|i| state[i] ^ block[i])
}

// A length as a big-endian block, as wide as the cipher's blocks.
fn length_block<B: Block>(length: u16) -> [u8; 16]
    ensures { result ≡ to_be B.make.width length ++ replicate (16 - B.make.width) 0 }
{
    let width = B::width();
    let mut block = [0; 16];
    block[width - 2..width].copy_from_slice(&length.to_be_bytes());
    block
}

// The first half of the last block.
fn front(block: [u8; 16]) -> [u8; 8]
    ensures { result ≡ take 8 block }
{
    let [a, b, c, d, e, f, g, h, ..] = block;
    [a, b, c, d, e, f, g, h]
}

// The state of the chaining after the length of a message.
fn begun<B: Block>(cipher: &B, length: u16) -> [u8; 16]
    ensures { result ≡ on_front B.make.width (B.under cipher.now) (to_be B.make.width length ++ replicate (16 - B.make.width) 0) }
{
    cipher.encrypt(length_block::<B>(length))
}

// Chains one more part of a message, a block or what is left.
fn absorb<B: Block>(cipher: &B, state: &mut [u8; 16], part: &[u8])
    requires { length part.now ≤ 16 }
    ensures { state.new ≡ on_front B.make.width (B.under cipher.now) (state.old ⊕ part.now) }
{
    *state = cipher.encrypt(joined(*state, part));
}

// The tag of a message under a key that is set up.
// Cipher and message are no one type, since a key is set up once for both messages of a derivation.
pub(crate) fn mac<B: Block>(cipher: &B, message: Message<'_>) -> [u8; 8]
    ensures { result ≡ take 8 (chained_mac B.make.width (B.under cipher.now) message.entry.bytes.now) }
{
    let mut state = begun(cipher, message.len());
    for part in message.bytes.chunks(B::width()) {
        absorb(cipher, &mut state, part);
    }
    front(state)
}

// The tag of a message under a key.
pub fn tag<B: Block>(key: Key, message: &[u8]) -> Result<[u8; 8], Refusal>
    ensures { result ≡ tagged B.make key message.now }
{
    let message = Message::try_from(message)?;
    Ok(mac(&B::keyed(key), message))
}
