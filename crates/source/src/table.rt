// A key source that has all its keys stored.
ghost use Rattle.std.specs.Prelude.{◌≤◌, length};
ghost use Rattle.source.specs.declared.limits.TheConstants.{MOST_KEYS};

use cipher::Key;

pub(crate) mod draws;

#[derive(Drop)]
pub struct Table {
    keys: Vec<Key>,
    given: usize,
    ghost least: { 2 ≤ length keys.items },
    ghost most: { length keys.items ≤ MOST_KEYS },
    ghost within: { given ≤ length keys.items },
}
