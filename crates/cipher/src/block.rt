// The interface of a block cipher. Code above it is written once, for every make.
ghost use Rattle.std.specs.Prelude.{◌≡◌, ℕ, List};
ghost use Rattle.cipher.specs.Blocks.{Make, on_front};
ghost use Rattle.cipher.specs.Keys.{key_bytes};

use crate::key::Key;

// A cipher with its key set up, so that one set-up serves many blocks.
pub trait Block: Sized + Drop {
    // the make's meaning: its width, and the value of each key and block
    ghost make: { Make };

    // what this cipher takes a block to
    ghost under: { Self → List ℕ → List ℕ };

    // The number of bytes in a block.
    fn width() -> usize
        ensures { result ≡ make.width };

    fn keyed(key: Key) -> Self
        ensures { under result ≡ make.value (key_bytes key) };

    // Encrypts the block in the first `width()` bytes; the bytes behind it stay.
    // The array has 16 bytes for each cipher: in generic code a type's own width cannot be an array's length.
    fn encrypt(&self, block: [u8; 16]) -> [u8; 16]
        ensures { result ≡ on_front make.width (under self.now) block };
}
