// A level's sign, asked of a file at hand.
ghost use Rattle.std.specs.Prelude.{◌≡◌, ◌<◌};
ghost use Rattle.system.specs.System.{sign};

use super::held::HeldFile;
use super::layout::Model;

impl HeldFile<'_> {
    ghost use Rattle.model.specs.Files.{held_system};

    // Whether level k + 1 is greatest.
    pub fn is_greatest(self, k: usize) -> bool
        requires { k < self.model.levels }
        ensures { result ≡ sign (held_system self.entry) k }
    {
        self.bytes[Model::SIGNS_AT + k] == 1
    }
}
