//! The rules by which signature files are elaborated, as definitions, and what elaboration works on: environments
//! and bodies with the places of their identifiers, units, sites, and the names and the weight so far.
#![tactic(auto)]

pub mod body;
pub mod closing;
pub mod copying;
pub mod detail;
pub mod entry;
pub mod external_names;
pub mod family;
pub mod finding;
pub mod found;
pub mod free_names;
pub mod index;
pub mod initial;
pub mod limits;
pub mod long_identifiers;
pub mod naming;
pub mod number_places;
pub mod own_names;
pub mod parameters;
pub mod place;
pub mod progress;
pub mod refusal;
pub mod scope;
pub mod site;
pub mod top_look_ups;
pub mod tops;
pub mod unit_places;
pub mod units;
pub mod variables;
pub mod weights;
