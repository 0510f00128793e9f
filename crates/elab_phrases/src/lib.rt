//! The elaboration of phrases: what a long type constructor denotes, types, and the descriptions of values, types,
//! datatypes, replications and exceptions.
#![tactic(auto)]

pub mod adding;
pub mod constructors;
pub mod datatypes;
pub mod equality;
pub mod flexible;
pub mod look_ups;
pub mod renumbering;
pub mod replicas;
pub mod settled_entries;
pub mod type_descriptions;
pub mod typing;
pub mod values;
