//! What gives names a meaning after they were described: the parts of a `where`, and both kinds of sharing.
#![tactic(auto)]

pub mod avoiding;
pub mod sharing;
pub mod wheres;
