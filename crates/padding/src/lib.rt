// Blanks, and numbers that they set to the right, put into a lent buffer. Definitions: specs/.
#![tactic(auto)]

ghost use Rattle.std.specs.Prelude.{◌+◌, ◌^◌, ◌≤◌, ◌<◌, length};
ghost use Rattle.text.specs.Text.{decimal, Puts};
ghost use Rattle.padding.specs.Padding.{blanks, set_right};

// Puts so many blanks.
pub fn put_blanks(out: &mut [u8], at: usize, count: usize) -> usize
    requires { at + count ≤ length out.old }
    ensures { Puts at (blanks count) out.old out.new result }
{
    let end = at + count;
    out[at..end].fill(b' ');
    end
}

// A decimal number of at most k places, set to the right in k places.
pub fn put_right(out: &mut [u8], at: usize, k: usize, x: u64) -> usize
    requires le_k { (1 ≤ k) × (x < 10 ^ k) }
    requires k_in_bounds { at + k ≤ length out.old }
    ensures { Puts at (set_right k (decimal x)) out.old out.new result }
{
    let places = text::decimal_places(x);
    let first = put_blanks(out, at, k - places);
    text::put_digits(out, first, 10, places, x)
}
