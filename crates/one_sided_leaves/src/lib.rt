// What the equation of each leaf of a lent tree reads (document 001, appendix C), found from the tree's gaps. Definitions: specs/.
#![tactic(auto)]

mod arguments;
mod spans;

pub use arguments::{LEAVES, VARIABLES, find_arguments, find_ends, find_starts};
pub use spans::find_spans;
