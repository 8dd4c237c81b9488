// When a level moves.
ghost use Rattle.std.specs.Prelude.{◌≡◌};
ghost use Rattle.pebbles.specs.Levels.{moves};

use crate::level::Level;

impl<K> Level<K> {
    // It is not put away, and above its target.
    pub fn is_moving(&self) -> bool
        ensures { result ≡ moves self.now }
    {
        !self.away && self.place > self.target
    }
}
