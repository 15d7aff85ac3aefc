// The share of good lines, in thousandths. Definitions: specs/.
#![tactic(auto)]

ghost use Rattle.std.specs.Prelude.{◌≡◌};
ghost use Rattle.share.specs.Share.{share_of};

// 1000 times good over n, rounded to a whole number, a half to the even neighbour; of no lines, 0.
pub fn share_of(good: u32, n: u32) -> u64
    ensures { result ≡ share_of good n }
{
    if n == 0 {
        return 0;
    }
    let lines = n as u64;
    let thousands = 1000 * (good as u64);
    let low = thousands / lines;
    let next = low + 1;
    let twice_rest = 2 * (thousands % lines);
    if twice_rest < lines {
        return low;
    }
    if lines < twice_rest {
        return next;
    }
    // Both are equally near.
    if low % 2 == 0 {
        return low;
    }
    next
}
