// The bound that a level starts from and moves: the upper for a greatest level, the lower for a least one.
ghost use Rattle.std.specs.Prelude.{◌≡◌};
ghost use Rattle.evaluator.specs.Sides.{start_of, moved};

use super::Bounds;

impl Bounds {
    // The value that a level starts from.
    pub fn start(self, greatest: bool) -> u64
        ensures { result ≡ start_of greatest self }
    {
        if greatest { self.high } else { self.low }
    }

    // The bounds of the level below, once this one has come to x.
    pub fn moved(self, greatest: bool, x: u64) -> Bounds
        ensures { result ≡ moved greatest self x }
    {
        if greatest {
            Bounds { high: x, ..self }
        } else {
            Bounds { low: x, ..self }
        }
    }
}
