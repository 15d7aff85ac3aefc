// Sets of up to 64 lines as words: the functions on them. Definitions: specs/.
#![tactic(auto)]

ghost use Rattle.std.specs.Prelude.{◌≡◌, min};
ghost use Rattle.sets.specs.Set.{is_member, is_within, full, members};

// All of the lines 0 to n - 1. No word has more than 64 lines.
pub fn full_set(n: usize) -> u64
    ensures { result ≡ full (min n 64) }
{
    if 64 <= n {
        return 0xffff_ffff_ffff_ffff;
    }
    (1u64 << n) - 1
}

// Whether every member of a is one of b.
pub fn within(a: u64, b: u64) -> bool
    ensures { result ≡ is_within a b }
{
    a & b == a
}

// Whether line i is in the set x.
pub fn member(x: u64, i: usize) -> bool
    ensures { result ≡ is_member x i }
{
    if 64 <= i {
        return false;
    }
    (x >> i) % 2 == 1
}

// The number of members, by halves: what counts a half's fits an instruction, so that a loop around it keeps its registers.
pub fn member_count(x: u64) -> u32
    ensures { result ≡ members x }
{
    u32::count_ones((x / 4294967296) as u32) + u32::count_ones((x % 4294967296) as u32)
}

// The same, 64 bits at once: faster where most words that are looked at are counted.
pub fn member_count_at_once(x: u64) -> u32
    ensures { result ≡ members x }
{
    u64::count_ones(x)
}
