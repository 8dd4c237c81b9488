// A level of a pebbled source: a key of the chain, its place there, the place down to which it goes, and whether it is put away.
// `away` is a flag and no Option of the level: the rule tells where a level that is put away rests.
#[derive(Clone, Copy, Drop)]
pub struct Level<K> {
    pub key: K,
    pub place: u32,
    pub target: u32,
    pub away: bool,
}
