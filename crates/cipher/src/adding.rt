// The adding block, 16 bytes wide, for the bench: easy to compute by hand, and no protection.
ghost use Rattle.std.specs.Prelude.{◌≡◌, ◌+◌, ◌%◌};
ghost use Rattle.cipher.specs.Adding.{adding};
ghost use Rattle.cipher.specs.Makes.{adding_make};

use crate::block::Block;
use crate::key::Key;
use std::array;

const WIDTH: usize = 16;

fn sum(block: u8, key: u8) -> u8
    ensures { result ≡ (block + key + 1) % 256 }
{
    block.wrapping_add(key).wrapping_add(1)
}

#[derive(Clone, Copy)]
pub struct Adding {
    key: [u8; 16],
}

impl Block for Adding {
    ghost make = { adding_make };

    ghost under = { λ s. adding s.key };

    fn width() -> usize {
        WIDTH
    }

    fn keyed(key: Key) -> Adding {
        Adding {
            key: key.to_bytes(),
        }
    }

    fn encrypt(&self, block: [u8; 16]) -> [u8; 16] {
        array::from_fn(|m| sum(block[m], self.key[m]))
    }
}
