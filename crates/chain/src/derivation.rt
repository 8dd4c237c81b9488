// Keys derived from keys, and steps down the chain, over any block cipher.
ghost use Rattle.std.specs.Prelude.{◌≡◌, ℕ, ◌+◌};
ghost use Rattle.chain.specs.Chain.{derive as derived, down as down_by, interval_tag_key, pair_tag_key, step as step_of};

use crate::mac::{Message, mac};
use cipher::{Block, Key};

// What a key is derived for. Bytes and no enum, since `derive` takes any byte; each has a function, so that no caller names one.
const STEP: u8 = 1;

const INTERVAL_TAG: u8 = 2;

const PAIR_TAG: u8 = 3;

// The key for a purpose: one key set-up, and the tags of two short messages.
pub fn derive<B: Block>(key: Key, purpose: u8) -> Key
    ensures { result ≡ derived B.make key purpose }
{
    let cipher = B::keyed(key);
    let high = mac(&cipher, Message::from(&[purpose, 0]));
    let low = mac(&cipher, Message::from(&[purpose, 1]));
    Key::from_halves(high, low)
}

// One step down the chain.
pub fn step<B: Block>(key: Key) -> Key
    ensures { result ≡ step_of B.make key }
{
    derive::<B>(key, STEP)
}

// Some steps down the chain; t steps more are that many and t from the first key.
pub fn down<B: Block>(key: Key, steps: u32) -> Key
    ensures value { result ≡ down_by B.make key steps }
    ensures more { (t : ℕ) → down_by B.make result t ≡ down_by B.make key (steps + t) }
{
    let mut reached = key;
    for _ in 0..steps {
        reached = step::<B>(reached);
    }
    reached
}

// The key under which the packets of an interval are tagged.
pub fn interval_tag_key<B: Block>(key: Key) -> Key
    ensures { result ≡ interval_tag_key B.make key }
{
    derive::<B>(key, INTERVAL_TAG)
}

// The key under which a base and a node tag what they say to each other.
pub fn pair_tag_key<B: Block>(key: Key) -> Key
    ensures { result ≡ pair_tag_key B.make key }
{
    derive::<B>(key, PAIR_TAG)
}
