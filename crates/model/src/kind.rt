// What the kind of a line asks of its operands.
ghost use Rattle.std.specs.Prelude.{◌≡◌};
ghost use Rattle.model.specs.Kinds.{kind_of};

#[derive(Clone, Copy, Debug, PartialEq, Eq)]
pub enum Kind {
    Any,
    All,
    Vote,
}

// The kind that a byte of a file says. A byte over 2, which checking refuses, counts as a vote, as in the definitions.
impl From<u8> for Kind {
    ghost from_gives = { λ byte kind. kind ≡ kind_of byte };

    fn from(byte: u8) -> Kind {
        match byte {
            0 => Kind::Any,
            1 => Kind::All,
            _ => Kind::Vote,
        }
    }
}
