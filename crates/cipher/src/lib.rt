// Keys of 16 bytes, the interface of a block cipher, and two makes of it: RC5-32/12/16 and the adding block.

#![tactic(auto)]

mod adding;
mod block;
mod key;
mod rc5;

pub use adding::Adding;
pub use block::Block;
pub use key::Key;
pub use rc5::Rc5;
