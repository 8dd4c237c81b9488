// A key of 16 bytes, held as two numbers.
ghost use Rattle.std.specs.Prelude.{◌≡◌, ◌++◌};
ghost use Rattle.cipher.specs.Keys.{key_bytes, key_of};

// The big-endian halves of the 16 bytes.
#[derive(Clone, Copy, PartialEq, Eq, Debug)]
pub struct Key {
    pub high: u64,
    pub low: u64,
}

// Bytes are read and written by methods named as the integers' are, and not by `From`: a `[u8; 16]` says nothing of its order.
impl Key {
    pub fn from_halves(high: [u8; 8], low: [u8; 8]) -> Key
        ensures { result ≡ key_of (high ++ low) }
    {
        Key {
            high: u64::from_be_bytes(high),
            low: u64::from_be_bytes(low),
        }
    }

    pub fn from_bytes(bytes: [u8; 16]) -> Key
        ensures value { result ≡ key_of bytes }
        ensures back { key_bytes result ≡ bytes }
    {
        let [a, b, c, d, e, f, g, h, i, j, k, l, m, n, o, p] = bytes;
        Key::from_halves([a, b, c, d, e, f, g, h], [i, j, k, l, m, n, o, p])
    }

    pub fn to_bytes(self) -> [u8; 16]
        ensures value { result ≡ key_bytes self }
        ensures back { key_of result ≡ self }
    {
        let [a, b, c, d, e, f, g, h] = self.high.to_be_bytes();
        let [i, j, k, l, m, n, o, p] = self.low.to_be_bytes();
        [a, b, c, d, e, f, g, h, i, j, k, l, m, n, o, p]
    }
}
