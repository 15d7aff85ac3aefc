// The search for the positions that can be met by steps, over a table of successors. Definitions: specs/.
#![tactic(auto)]

ghost use Rattle.std.specs.Prelude.{◌≡◌, ◌≤◌, ◌<◌, ◌^◌, length, get_or};
ghost use Rattle.reach.specs.Search as spec;

// The positions that can be met from those of `start` by steps to allowed positions; next[p] is the set of the successors of p.
// Each position that is met is followed once, the lowest first.
pub fn reached(next: &[u64], allowed: u64, start: u64) -> u64
    requires next_len_bound { length next.now ≤ 64 }
    requires allowed_bound { (allowed < 2 ^ length next.now) × (start < 2 ^ length next.now) }
    ensures { result ≡ spec.reached (length next.now) (λ p. get_or next.now p 0) allowed start }
{
    let mut found = start;
    let mut followed: u64 = 0;
    while followed != found {
        let p = u64::trailing_zeros(found ^ followed) as usize;
        followed = followed | (1u64 << p);
        found = found | (next[p] & allowed);
    }
    found
}
