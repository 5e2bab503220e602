//! What a policy means, and what in it is allowed and hardly meant.
//!
//! [`facts`] has who is at home where, who is kept apart, and from how many on an operation is
//! sanitised; [`warnings`] what is read as it stands and is hardly meant. Each list is exactly what
//! holds of the policy.
#![tactic(auto)]

mod crowd;
mod due;
mod fact;
pub mod laws;
mod number;
mod ops;
mod stated;
mod warning;

pub use due::{most_labels, warnings, warns};
pub use fact::Fact;
pub use number::asked;
pub use stated::{are_kept_apart, facts};
pub use wall_labels::NoMemory;
pub use warning::{Doubt, Warning};
