// The interface of a key source. Code above it is written once, for every source.
ghost use Rattle.std.specs.Prelude.{◌≡◌};
ghost use Rattle.source.specs.Sources.{Draw, Source};

use cipher::Key;
use refusal::Refusal;

pub trait KeySource {
    // the keys, how many of them were given, and the steps of the next call
    ghost meaning: { Self → Source };

    // How many keys were given.
    fn given(&self) -> u32
        ensures { result ≡ (meaning self.now).drawn };

    // How many keys there are in all.
    fn count(&self) -> u32
        ensures { result ≡ (meaning self.now).count };

    // The next key, with the steps that it took.
    fn next(&mut self) -> Result<(Key, u32), Refusal>
        ensures { Draw meaning self.old result self.new };
}
