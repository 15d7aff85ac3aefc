// The one-sided route: document 001's asymmetric algorithm over a lent tree, by stages until one changes nothing. Definitions: specs/.
#![tactic(auto)]

ghost use Rattle.std.specs.Prelude.{◌≡◌, ◌+◌, ◌≤◌, length, drop};
ghost use Rattle.trees.specs.Tree.{leaves};
ghost use Rattle.model.specs.Files.{held_system};
ghost use Rattle.routes.specs.Parts.{Lent, Gives, greatest_of};
ghost use Rattle.one_sided_route.specs.Route.{staged_run};

use model::HeldFile;
use one_sided_leaves::{LEAVES, VARIABLES, find_ends, find_spans, find_starts};
use one_sided_stages::{append, evaluate_queue, take_over};
use routes::Found;

// The one-sided set of a file's system between empty and full over the lent tree v, with the evaluations made.
// The variables stand in the first words: the full set, and then one for each leaf.
pub fn one_sided(file: HeldFile, v: &[u8], words: &mut [u64]) -> Found
    requires lent { Lent (greatest_of (held_system file) file.model.levels) v.now }
    requires v_in_bounds { leaves v.now + 1 ≤ length words.old }
    ensures result { let run = staged_run (held_system file.entry) v.now in
        Gives result run.value run.queries }
    ensures kept { drop (leaves v.now + 1) words.new ≡ drop (leaves v.now + 1) words.old }
{
    let leaves = v.len() + 1;
    let mut before = [0u16; VARIABLES];
    find_starts(v, &mut before);
    let mut over = [0u16; LEAVES];
    find_ends(v, &mut over);
    let mut from = [0u16; VARIABLES];
    let mut to = [0u16; VARIABLES];
    find_spans(file, v, &before, &over, &mut from, &mut to);
    let full = sets::full_set(file.model.lines);
    let mut state = [0u64; VARIABLES];
    state[0] = full;
    words[0] = full;
    // In the first stage every right side is due.
    let mut flags = [false; LEAVES];
    let mut queue = [0u16; LEAVES];
    let mut number = append(0, leaves, &mut flags, &mut queue, 0, leaves);
    let mut changed = [0u16; LEAVES];
    // More stages than this cannot change anything.
    let mut left = leaves * file.model.lines + 1;
    let mut count: u64 = 0;
    loop {
        count += number as u64;
        let others = evaluate_queue(
            file,
            v,
            &before,
            &over,
            &state,
            &queue,
            number,
            &mut flags,
            words,
            &mut changed,
        );
        if others == 0 || left == 0 {
            break;
        }
        left -= 1;
        number = take_over(
            v, words, &changed, others, &from, &to, &mut state, &mut flags, &mut queue,
        );
    }
    Found {
        set: words[leaves],
        count,
    }
}
