// What the routes share: a set with its queries, and how many levels are least.
ghost use Rattle.std.specs.Prelude.{◌≡◌};
ghost use Rattle.model.specs.Files.{held_system};
ghost use Rattle.routes.specs.Routes.{least_levels};

use model::HeldFile;

// A set, and the queries made on the way to it.
#[derive(Clone, Copy, Debug, PartialEq, Eq)]
pub struct Found {
    pub set: u64,
    pub count: u64,
}

// The number of least levels.
pub fn count_least(file: HeldFile) -> usize
    ensures { result ≡ least_levels (held_system file.entry) }
{
    let mut least = 0;
    for k in 0..file.model.levels {
        if !file.is_greatest(k) {
            least += 1;
        }
    }
    least
}
