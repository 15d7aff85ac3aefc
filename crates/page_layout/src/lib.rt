// The bench page of a system with its good lines, put into a buffer. Definitions: specs/.
#![tactic(auto)]

ghost use Rattle.std.specs.Prelude.{[], ◌∷◌, ◌++◌, ◌+◌, ◌-◌, ◌*◌, ◌≤◌, ◌<◌, length, get_or};
ghost use Rattle.sets.specs.Set.{is_member};
ghost use Rattle.model.specs.Files.{laid_system};
ghost use Rattle.text.specs.Text.{Puts};
ghost use Rattle.padding.specs.Padding.{blanks};
ghost use Rattle.page_layout.specs.Page.{kind_word, mark, first_row, line_row, rows_of, page};

use model::{Kind, LaidFile, Model};
use padding::{put_blanks, put_right};
use text::put;

// A row's characters, without its newline.
const ROW_PLACES: usize = 40;

// Blanks up to the end of the row that begins at `start`, and its newline.
fn end_row(out: &mut [u8], start: usize, at: usize) -> usize
    requires start_le_at { (start ≤ at) × (at ≤ start + 40) }
    requires start_in_bounds { start + 41 ≤ length out.old }
    ensures { Puts at (blanks (start + 40 - at) ++ (10 ∷ [])) out.old out.new result }
{
    let end = put_blanks(out, at, start + ROW_PLACES - at);
    put(out, end, b"\n")
}

// The row of the counts and the share, at the front.
fn put_first_row(out: &mut [u8], m: Model, share: u64) -> usize
    requires lines_bound { (m.lines ≤ 64) × (m.levels ≤ 8) }
    requires share_bound { share ≤ 1000 }
    requires in_bounds { 41 ≤ length out.old }
    ensures { Puts 0 (first_row m.lines m.levels share) out.old out.new result }
{
    let lines = put(out, 0, b"lines ");
    let lines_end = put_right(out, lines, 2, m.lines as u64);
    let levels = put(out, lines_end, b" levels ");
    let levels_end = put_right(out, levels, 1, m.levels as u64);
    let thousandths = put(out, levels_end, b" share ");
    let end = put_right(out, thousandths, 4, share);
    end_row(out, 0, end)
}

// A kind's word, with a blank on either side.
fn put_kind(out: &mut [u8], at: usize, kind: u8) -> usize
    requires { at + 5 ≤ length out.old }
    ensures { Puts at (32 ∷ (kind_word kind ++ (32 ∷ []))) out.old out.new result }
{
    match Kind::from(kind) {
        Kind::Any => put(out, at, b" any "),
        Kind::All => put(out, at, b" all "),
        Kind::Vote => put(out, at, b" vot "),
    }
}

// A good line's mark, or the others'.
fn put_mark(out: &mut [u8], at: usize, good: bool) -> usize
    requires { at + 1 ≤ length out.old }
    ensures { Puts at (mark good) out.old out.new result }
{
    if good {
        put(out, at, b"+")
    } else {
        put(out, at, b"-")
    }
}

// The row of line i.
fn put_line_row(out: &mut [u8], at: usize, i: usize, kind: u8, good: bool) -> usize
    requires i_bound { i < 64 }
    requires at_in_bounds { at + 41 ≤ length out.old }
    ensures { Puts at (line_row i kind good) out.old out.new result }
{
    let number_end = put_right(out, at, 2, i as u64);
    let kind_end = put_kind(out, number_end, kind);
    let end = put_mark(out, kind_end, good);
    end_row(out, at, end)
}

// The rows of a file's lines, of which those in `good` are good.
fn put_line_rows(file: LaidFile, good: u64, out: &mut [u8], at: usize) -> usize
    requires lines_in_bounds { at + 41 * file.model.lines ≤ length out.old }
    ensures { Puts at (rows_of file.entry.model.lines (λ i. line_row i (get_or (laid_system file.entry).kinds i 0) (is_member good i))) out.old out.new result }
{
    let mut next = at;
    for i in 0..file.model.lines {
        next = put_line_row(out, next, i, file.kind(i), sets::member(good, i));
    }
    next
}

// The page of a file with these good lines, at the front.
pub fn put_page(file: LaidFile, good: u64, out: &mut [u8]) -> usize
    requires le_lines { 1 ≤ file.model.lines }
    requires lines_in_bounds { 41 * (file.model.lines + 1) ≤ length out.old }
    ensures { Puts 0 (page (laid_system file.entry) good) out.old out.new result }
{
    let share = met_lines::met_share(file, good);
    let rows = put_first_row(out, file.model, share);
    put_line_rows(file, good, out, rows)
}
