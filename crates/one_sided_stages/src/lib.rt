// One stage, and what it leaves to the next: the right sides in a queue are evaluated, and where a variable has changed, the leaves of its span are put into
// the next queue.
#![tactic(auto)]

ghost use Rattle.std.specs.Prelude.{◌≡◌, ℕ, ◌+◌, ◌≤◌, ◌<◌, length, get_or};
ghost use Rattle.trees.specs.Tree.{leaves};
ghost use Rattle.one_sided_leaves.specs.Leaves.{Linked};
ghost use Rattle.one_sided_stages.specs.Stages.{right_side_at, Grows, Queued, NoneFlagged, Carried, Evaluated, Listed, Flagged, FlaggedFor};

use model::{HeldFile, Model};
use one_sided_leaves::{LEAVES, VARIABLES, find_arguments};

// The right side of leaf i + 1: the query of the arguments' values, within the value of the variable i. The leaf's own variable holds a part of it already, so
// that only the other lines are worked out.
fn right_side(
    file: HeldFile,
    v: &[u8],
    before: &[u16; VARIABLES],
    over: &[u16; LEAVES],
    state: &[u64; VARIABLES],
    i: usize,
) -> u64
    requires linked { (i ≤ length v.now) × Linked v.now before.now over.now }
    requires grows { Grows file.bytes.now file.model v.now state.now }
    ensures { result ≡ right_side_at file.entry.bytes.now file.entry.model v.now state.now i }
{
    let bound = state[i];
    let part = state[i + 1];
    let lines = bound & (bound ^ part);
    if lines == 0 {
        return part;
    }
    let mut args = [0usize; Model::MAX_LEVELS];
    find_arguments(file, v, before, over, i, &mut args);
    let mut ys = [0u64; Model::MAX_LEVELS];
    for k in 0..file.model.levels {
        let y = args[k];
        ys[k] = state[y];
    }
    part | one_query::evaluate_lines(file, &ys, lines)
}

// The right sides of the leaves in the queue, at the values in the state, into the words. The variables that become other are listed; it says how many.
// No leaf is flagged any more.
pub fn evaluate_queue(
    file: HeldFile,
    v: &[u8],
    before: &[u16; VARIABLES],
    over: &[u16; LEAVES],
    state: &[u64; VARIABLES],
    queue: &[u16; LEAVES],
    number: usize,
    flags: &mut [bool; LEAVES],
    words: &mut [u64],
    changed: &mut [u16; LEAVES],
) -> usize
    requires linked { Linked v.now before.now over.now × Grows file.bytes.now file.model v.now state.now }
    requires v_in_bounds { leaves v.now < length words.old }
    requires queued { Queued (leaves v.now) flags.old queue.now number × Carried (leaves v.now) flags.old state.now words.old }
    ensures cleared { NoneFlagged (leaves v.now) flags.new }
    ensures evaluated { Evaluated file.entry.bytes.now file.entry.model v.now flags.old state.now words.old words.new }
    ensures listed { Listed (leaves v.now) state.now words.new changed.new result }
{
    let mut others = 0;
    for p in 0..number {
        let i = queue[p] as usize;
        let value = right_side(file, v, before, over, state, i);
        flags[i] = false;
        words[i + 1] = value;
        if state[i + 1] != value {
            changed[others] = (i + 1) as u16;
            others += 1;
        }
    }
    others
}

// Puts the leaves from `from` on and below `to` that are not flagged into the queue behind its first entries, and flags them.
pub fn append(
    from: u16,
    to: usize,
    flags: &mut [bool; LEAVES],
    queue: &mut [u16; LEAVES],
    number: usize,
    w: usize,
) -> usize
    requires to_le_w { (to ≤ w) × (w ≤ 1024) }
    requires queued_2 { Queued w flags.old queue.old number }
    ensures queued { Queued w flags.new queue.new result }
    ensures flagged { Flagged from to flags.old flags.new }
{
    let mut end = number;
    for i in from as usize..to {
        if !flags[i] {
            flags[i] = true;
            queue[end] = i as u16;
            end += 1;
        }
    }
    end
}

// Takes the listed words over into the state. The leaves that are due by them become the queue, and are flagged; it says how many.
pub fn take_over(
    v: &[u8],
    words: &[u64],
    changed: &[u16; LEAVES],
    others: usize,
    from: &[u16; VARIABLES],
    to: &[u16; VARIABLES],
    state: &mut [u64; VARIABLES],
    flags: &mut [bool; LEAVES],
    queue: &mut [u16; LEAVES],
) -> usize
    requires v_len_bound { (length v.now ≤ 1023) × (leaves v.now < length words.now) }
    requires listed { Listed (leaves v.now) state.old words.now changed.now others × NoneFlagged (leaves v.now) flags.old }
    requires by_index { (y : ℕ) → y ≤ leaves v.now → get_or to.now y 0 ≤ leaves v.now }
    ensures taken { (y : ℕ) → y ≤ leaves v.now → get_or state.new y 0 ≡ get_or words.now y 0 }
    ensures flagged { FlaggedFor (leaves v.now) state.old words.now from.now to.now flags.new }
    ensures queued { Queued (leaves v.now) flags.new queue.new result }
{
    let w = v.len() + 1;
    let mut number = 0;
    for p in 0..others {
        let y = changed[p] as usize;
        state[y] = words[y];
        number = append(from[y], to[y] as usize, flags, queue, number, w);
    }
    number
}
