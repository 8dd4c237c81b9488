// What the node made of a record that it did not refuse.

#[derive(Clone, Copy, PartialEq, Eq, Debug)]
pub enum Outcome {
    // Passed over: the node has yet to ask, or to join.
    TooSoon,
    // Passed over: the node has asked, or joined, before.
    Repeated,
    // The node asks to join.
    Asked,
    Joined,
    // A packet was taken, and so many are then held.
    Held(usize),
    // A key was granted, so many steps above the last one.
    Adopted(u32),
}
