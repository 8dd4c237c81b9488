// Known values of the definitions that every contract cites, computed by the checker.

#![tactic(auto)]

ghost use Rattle.samples.specs.Table.{Table};

#[derive(Clone, Copy)]
pub struct Samples {
    // RC5, zero key and block.
    pub rc5_of_zeros: [u8; 8],
    // The adding block from here on. The tag of the empty message under the zero key.
    pub tag_of_nothing: [u8; 8],
    // The keys K_1 and K_0 of a chain whose last key, K_2, is zero.
    pub key_one: [u8; 16],
    pub key_nought: [u8; 16],
    // Interval 2's first packet in that chain, with no payload: its tag, and all its bytes.
    pub tag_of_data: [u8; 8],
    pub data_packet: [u8; 12],
    // The steps of each call of a pebbled source over eight keys.
    pub pebbled_steps: [u32; 8],
}

pub fn known_values() -> Samples
    ensures { Table result }
{
    Samples {
        rc5_of_zeros: [0x21, 0xa5, 0xdb, 0xee, 0x15, 0x4b, 0x8f, 0x6d],
        tag_of_nothing: [1, 1, 1, 1, 1, 1, 1, 1],
        key_one: [1, 2, 2, 2, 2, 2, 2, 2, 1, 1, 2, 2, 2, 2, 2, 2],
        key_nought: [5, 6, 6, 6, 6, 6, 6, 6, 5, 5, 6, 6, 6, 6, 6, 6],
        tag_of_data: [0x0b, 6, 4, 6, 6, 6, 6, 6],
        data_packet: [3, 0, 2, 0, 0x0b, 6, 4, 6, 6, 6, 6, 6],
        pebbled_steps: [1, 0, 3, 0, 1, 0, 1, 0],
    }
}
