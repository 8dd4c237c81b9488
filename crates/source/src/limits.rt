// How large a source may be.

// A pebbled source has room for a level for each bit of its number of keys.
pub(crate) const LEVELS: usize = 12;

// A node's last interval is the same number; a source knows nothing of a node.
pub(crate) const MOST_KEYS: usize = 1 << LEVELS;
