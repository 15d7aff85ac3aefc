// The arguments of the equations, leaf by leaf, from the gaps. Of the leaves in the order of the tree, those between two gaps over l are a block.
ghost use Rattle.std.specs.Prelude.{◌≡◌, ◌≤◌, length, take};
ghost use Rattle.one_sided.specs.Explicit.{last_over, last_leaf};
ghost use Rattle.one_sided_leaves.specs.Leaves.{Starts, Ends, Linked, arguments_in};

use model::{HeldFile, Model};

// As many leaves as there can be, and one variable more.
pub const LEAVES: usize = Model::MAX_GAPS + 1;

pub const VARIABLES: usize = Model::MAX_GAPS + 2;

// The leaves before the block of leaf i + 1, whose gaps are at most l. A gap that is not over l leads to the one before it that is over it.
fn block_start(v: &[u8], before: &[u16; VARIABLES], l: usize, i: usize) -> usize
    requires { (i ≤ length v.now) × (length v.now ≤ 1023) × Starts v.now before.now i }
    ensures { result ≡ last_over l v.now i }
{
    let mut j = i;
    while 0 < j {
        if l < v[j - 1] as usize {
            return j;
        }
        j = before[j] as usize;
    }
    j
}

// The last leaf of that block. A gap that is not over l leads to the next that is over it.
fn block_end(v: &[u8], over: &[u16; LEAVES], l: usize, i: usize) -> usize
    requires { (i ≤ length v.now) × (length v.now ≤ 1023) × Ends v.now over.now i }
    ensures { result ≡ last_leaf l v.now i }
{
    let mut j = i;
    while j < v.len() {
        if l < v[j] as usize {
            return j + 1;
        }
        j = over[j] as usize;
    }
    j + 1
}

// For each gap the one before it that is over it, or 0. Gaps are counted from 1.
pub fn find_starts(v: &[u8], before: &mut [u16; VARIABLES])
    requires { length v.now ≤ 1023 }
    ensures { Starts v.now before.new (length v.now) }
{
    for i in 0..v.len() {
        let start = block_start(v, before, v[i] as usize, i);
        before[i + 1] = start as u16;
    }
}

// For each gap the next that is over it, or the number of the gaps. Gaps are counted from 0.
pub fn find_ends(v: &[u8], over: &mut [u16; LEAVES])
    requires { length v.now ≤ 1023 }
    ensures { Ends v.now over.new 0 }
{
    for i in (0..v.len()).rev() {
        let end = block_end(v, over, v[i] as usize, i + 1);
        over[i] = (end - 1) as u16;
    }
}

// The arguments of the equation of leaf i + 1. A greatest level reads the variable before the leaf's block of its height, a least level that of the
// block's last leaf. The blocks of the levels outside have these as parts.
pub fn find_arguments(
    file: HeldFile,
    v: &[u8],
    before: &[u16; VARIABLES],
    over: &[u16; LEAVES],
    i: usize,
    args: &mut [usize; Model::MAX_LEVELS],
)
    requires { (i ≤ length v.now) × Linked v.now before.now over.now }
    ensures { take file.entry.model.levels args.new ≡ arguments_in file.entry.bytes.now file.entry.model v.now i }
{
    let mut start = i;
    let mut last = i;
    let mut height = 0;
    for k in 0..file.model.levels {
        if file.is_greatest(k) {
            start = block_start(v, before, height, start);
            args[k] = start;
            height += 1;
        } else {
            let end = block_end(v, over, height, last);
            args[k] = end;
            last = end - 1;
        }
    }
}
