// A model's type and limits, the layout of its file and what stands where in it, a level's sign, and searches that several operations share. Definitions: specs/.
#![tactic(auto)]

mod held;
mod kind;
mod layout;
mod place;
mod search;
mod sign;

pub use held::{HeldFile, LaidFile};
pub use kind::Kind;
pub use layout::Model;
pub use place::{is_old, line_bytes, words_in};
pub use search::{misfits, one_over, one_strays};
