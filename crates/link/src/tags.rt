// The tags that are right, from the keys that are known: a base writes them, a node asks for them.
ghost use Rattle.std.specs.Prelude.{◌≡◌, ◌++◌, Ok, Err, if◌then◌else◌};
ghost use Rattle.refusal.specs.declared.Refusal.TheVariants.{TooLong};
ghost use Rattle.packet.specs.Kinds.{a_data, answer_said, data_said};
ghost use Rattle.packet.specs.Writing.{short_enough};
ghost use Rattle.link.specs.Join.{answer_tag};
ghost use Rattle.link.specs.Receiver.{data_tag};

use chain::{interval_tag_key, pair_tag_key, tag};
use cipher::{Block, Key};
use packet::{Answer, Data};
use refusal::Refusal;

// The tag of a data packet, from the chain's key of its interval.
pub fn data_tag<B: Block>(key: Key, packet: &Data) -> Result<[u8; 8], Refusal>
    ensures { result ≡ (if short_enough (a_data (data_said packet.now)) then Ok (data_tag B.make key (data_said packet.now)) else Err TooLong) }
{
    let mut covered = [0; 68];
    let length = packet.covered(&mut covered)?;
    let under = interval_tag_key::<B>(key);
    tag::<B>(under, &covered[..length])
}

// What the tag of an answer covers: the nonce of the request, and the answer before its tag.
fn joined(nonce: &[u8; 8], covered: &[u8; 40]) -> [u8; 48]
    ensures { result ≡ nonce.now ++ covered.now }
{
    let mut message = [0; 48];
    let (front, behind) = message.split_at_mut(nonce.len());
    front.copy_from_slice(nonce);
    behind.copy_from_slice(covered);
    message
}

// The tag of an answer, from the key of the pair and the request's nonce.
pub fn answer_tag<B: Block>(pair: Key, nonce: &[u8; 8], answer: &Answer) -> [u8; 8]
    ensures { result ≡ answer_tag B.make pair nonce.now (answer_said answer.now) }
{
    let message = joined(nonce, &answer.covered());
    tag::<B>(pair_tag_key::<B>(pair), &message).unwrap()
}
