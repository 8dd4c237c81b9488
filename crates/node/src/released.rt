// What a release tells of the packet that it let out.

// The payload, of `length` bytes, is in the start of the buffer; it has none where the verdict is false.
// A rule of the project asks for a plain record of these four, and so for no Option of the length.
#[derive(Clone, Copy, PartialEq, Eq, Debug)]
pub struct Released {
    pub interval: u16,
    pub number: u8,
    pub length: usize,
    pub verdict: bool,
}
