// How much a replay wrote and read.

// In bytes; both count the header of the capture.
#[derive(Clone, Copy, PartialEq, Eq, Debug)]
pub struct Counts {
    pub written: usize,
    pub read: usize,
}
