// Which equations have a variable: those of the leaves of one span.
ghost use Rattle.std.specs.Prelude.{◌≡◌, ℕ, ◌≤◌, ◌<◌, length, get_or};
ghost use Rattle.one_sided_leaves.specs.Leaves.{Linked, Spans, Widened};

use super::arguments::{LEAVES, VARIABLES, find_arguments};
use model::{HeldFile, Model};

// Widens the spans of the first d arguments by the leaf i + 1.
fn widen(
    args: &[usize; Model::MAX_LEVELS],
    d: usize,
    i: usize,
    from: &mut [u16; VARIABLES],
    to: &mut [u16; VARIABLES],
)
    requires small { (d ≤ 8) × (i < 1024) }
    requires by_index { (k : ℕ) → k < d → (get_or args.now k 0 < 1025) × (get_or from.old (get_or args.now k 0) 0 ≤ 1024) × (get_or to.old (get_or args.now k 0) 0 ≤ 1024) }
    ensures { Widened args.now d i from.old to.old from.new to.new }
{
    for k in 0..d {
        let y = args[k];
        if i < from[y] as usize {
            from[y] = i as u16;
        }
        if to[y] as usize <= i {
            to[y] = i as u16 + 1;
        }
    }
}

// The spans of all variables, widened leaf by leaf. The variable i is the bound of leaf i + 1.
pub fn find_spans(
    file: HeldFile,
    v: &[u8],
    before: &[u16; VARIABLES],
    over: &[u16; LEAVES],
    from: &mut [u16; VARIABLES],
    to: &mut [u16; VARIABLES],
)
    requires { Linked v.now before.now over.now }
    ensures { Spans file.entry.bytes.now file.entry.model v.now from.new to.new }
{
    let leaves = v.len() + 1;
    for y in 0..leaves {
        from[y] = y as u16;
        to[y] = y as u16 + 1;
    }
    from[leaves] = leaves as u16;
    to[leaves] = leaves as u16;
    let mut args = [0usize; Model::MAX_LEVELS];
    for i in 0..leaves {
        find_arguments(file, v, before, over, i, &mut args);
        widen(&args, file.model.levels, i, from, to);
    }
}
