// A file at hand with its counts. Its type says what is known of it: laid out for the counts, or also that no vote is set without operands.
ghost use Rattle.std.specs.Prelude.{◌≡◌};
ghost use Rattle.model.specs.Held.{LaidOut, Held};

use super::layout::Model;

#[derive(Clone, Copy)]
pub struct LaidFile<'a> {
    pub bytes: &'a [u8],
    pub model: Model,
    pub ghost laid_out: { LaidOut bytes.now model },
}

#[derive(Clone, Copy)]
pub struct HeldFile<'a> {
    pub bytes: &'a [u8],
    pub model: Model,
    pub ghost held: { Held bytes.now model },
}

impl<'a> HeldFile<'a> {
    pub fn laid(self) -> LaidFile<'a>
        ensures { (result.bytes ≡ self.entry.bytes) × (result.model ≡ self.entry.model) }
    {
        LaidFile {
            bytes: self.bytes,
            model: self.model,
        }
    }
}
