//! By the licences that somebody accepts: the least choice of each expression alone, or one choice for all of them.

mod choices;
mod joint;
mod unmet;

pub use crate::accepted::choices::own_choices;
pub use crate::accepted::joint::joint_choices;
pub use crate::accepted::unmet::Unmet;
