// The leaf counts of the built-in trees. Definitions: specs/.
#![tactic(auto)]

ghost use Rattle.std.specs.Prelude.{◌≡◌, ◌≤◌};
ghost use Rattle.trees.specs.Built.{leaf_count};

use table::LEAF_COUNTS;

mod table;

// L(n, h): from height 2 on it is looked up; of height 1 it is n, and of height 0 it is 1, or 0 where n is 0.
pub fn leaf_count_at(n: usize, h: usize) -> u64
    requires { (n ≤ 64) × (h ≤ 8) }
    ensures { result ≡ leaf_count n h }
{
    if 1 < h {
        return LEAF_COUNTS[(h - 2) * 65 + n] as u64;
    }
    if h == 1 {
        return n as u64;
    }
    if n == 0 {
        return 0;
    }
    1
}
