// A key source with the last key that it gave.
ghost use Rattle.std.specs.Prelude.{◌≡◌, ℕ, ◌≤◌};
ghost use Rattle.cipher.specs.declared.key.Key.{Key as AnyKey};
ghost use Rattle.base.specs.Keys.{Serves};

use cipher::Key;
use source::KeySource;

// The last key is K_0 where none was given yet.
#[derive(Drop)]
pub struct Drawing<S: KeySource> {
    pub(crate) source: S,
    pub(crate) last: Key,
}

impl<S: KeySource> Drawing<S> {
    // Draws until the key of an interval was given, and passes over those before it.
    pub(crate) fn draw_to(&mut self, interval: u32)
        requires { interval ≤ (S.meaning self.old.source).count }
        ensures given { (S.meaning self.old.source).drawn ≤ interval → (S.meaning self.new.source).drawn ≡ interval }
        ensures serves { (zeroth : AnyKey) (n : ℕ) (key : ℕ → AnyKey) → Serves S.meaning self.old zeroth n key → Serves S.meaning self.new zeroth n key }
    {
        while self.source.given() < interval {
            let (key, _) = self.source.next().unwrap();
            self.last = key;
        }
    }
}
