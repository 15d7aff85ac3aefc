// What the routes share, and the innermost level of both tree routes. Definitions, of every route: specs/.
#![tactic(auto)]

mod innermost;
mod shared;

pub use innermost::innermost_level;
pub use shared::{Found, count_least};
