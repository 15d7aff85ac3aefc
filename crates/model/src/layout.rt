// The model's type, its limits, and where the sections of its file begin.
ghost use Rattle.std.specs.Prelude.{◌≡◌, ◌≤◌};
ghost use Rattle.answers.specs.Check.{first_of, unless};
ghost use Rattle.model.specs.File.{kinds_at, words_at, old_words_at, file_length};
ghost use Rattle.model.specs.Checks.{count_checks};
ghost use Rattle.model.specs.Says.{reading_answer, sized};

use answers::Refusal;

// A model's two counts. Its file is lent beside them.
#[derive(Clone, Copy, Debug, PartialEq, Eq)]
pub struct Model {
    pub lines: usize,
    pub levels: usize,
}

impl Model {
    pub const MAX_LINES: usize = 64;

    pub const MAX_LEVELS: usize = 8;
    // Of a lent tree.
    pub const MAX_GAPS: usize = 1023;
    // Of the longest file, in bytes.
    pub const MAX_FILE: usize = 4248;
    // The signs begin after the header.
    pub const SIGNS_AT: usize = 16;

    // A model of so many lines and levels, if there may be so many.
    pub fn new(lines: usize, levels: usize) -> Result<Model, Refusal>
        ensures { reading_answer result ≡ unless (first_of (count_checks lines levels)) (sized lines levels) }
    {
        if lines == 0 || Model::MAX_LINES < lines {
            return Err(Refusal::Lines);
        }
        if levels == 0 || Model::MAX_LEVELS < levels {
            return Err(Refusal::Levels);
        }
        Ok(Model { lines, levels })
    }

    pub fn kinds_at(self) -> usize
        requires { self.levels ≤ 8 }
        ensures { result ≡ kinds_at self.levels }
    {
        Model::SIGNS_AT + self.levels
    }

    // In a new file, the only ones that are made.
    pub fn words_at(self) -> usize
        requires { (self.lines ≤ 64) × (self.levels ≤ 8) }
        ensures { result ≡ words_at self.lines self.levels }
    {
        Model::SIGNS_AT + self.levels + 2 * self.lines
    }

    pub fn old_words_at(self) -> usize
        requires { (self.lines ≤ 64) × (self.levels ≤ 8) }
        ensures { result ≡ old_words_at self.lines self.levels }
    {
        Model::SIGNS_AT + self.levels + self.lines
    }

    // Of a new file.
    pub fn file_length(self) -> usize
        requires { (self.lines ≤ 64) × (self.levels ≤ 8) }
        ensures { result ≡ file_length self.lines self.levels }
    {
        Model::SIGNS_AT + self.levels + 2 * self.lines + 8 * (self.lines * self.levels)
    }
}
