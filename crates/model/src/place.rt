// Where a file at hand has its words, and the kind and the threshold of a line. Its own third offset tells which layout it has, and only here is it asked.
ghost use Rattle.std.specs.Prelude.{◌≡◌, ◌≤◌, ◌<◌, length, get_or};
ghost use Rattle.model.specs.File.{words_in, is_old, line_bytes};

use super::held::LaidFile;
use super::layout::Model;
use numbers::u32_at;

// Where the words begin.
pub fn words_in(file: &[u8]) -> usize
    requires { 16 ≤ length file.now }
    ensures { result ≡ words_in file.now }
{
    u32_at(file, 12) as usize
}

// Whether the file is an old one, which has no thresholds.
pub fn is_old(file: &[u8], m: Model) -> bool
    requires lines_bound { (m.lines ≤ 64) × (m.levels ≤ 8) }
    requires in_bounds { 16 ≤ length file.now }
    ensures { result ≡ is_old m.lines m.levels file.now }
{
    words_in(file) == m.old_words_at()
}

// How many bytes a line has in front of the words: its kind, and in a new file its threshold.
pub fn line_bytes(file: &[u8], m: Model) -> usize
    requires lines_bound { (m.lines ≤ 64) × (m.levels ≤ 8) }
    requires in_bounds { 16 ≤ length file.now }
    ensures { result ≡ line_bytes (is_old m.lines m.levels file.now) }
{
    if !is_old(file, m) {
        return 2;
    }
    1
}

impl LaidFile<'_> {
    ghost use Rattle.model.specs.Files.{laid_system};

    // The kind of line i.
    pub fn kind(self, i: usize) -> u8
        requires { i < self.model.lines }
        ensures { result ≡ get_or (laid_system self.entry).kinds i 0 }
    {
        let m = self.model;
        let at = m.kinds_at() + line_bytes(self.bytes, m) * i;
        self.bytes[at]
    }

    // The threshold of line i.
    pub fn threshold(self, i: usize) -> u8
        requires { i < self.model.lines }
        ensures { result ≡ get_or (laid_system self.entry).thresholds i 0 }
    {
        let m = self.model;
        if is_old(self.bytes, m) {
            return 0;
        }
        let at = m.kinds_at() + 1 + 2 * i;
        self.bytes[at]
    }
}
