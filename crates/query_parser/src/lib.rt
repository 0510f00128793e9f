//! Queries: types that are looked for in a library.
//!
//! `read_query` reads the text of a query, a type of Standard ML whose constructors are the initial ones,
//! those of the library by their paths, and the external names of the library, and gives its scheme. A query
//! is refused with the first condition that fails, `QueryWhy`, and the byte at which it does.
#![tactic(auto)]

mod constructors;
mod laws;
mod place;
mod reading;
mod refusal;
mod typing;

pub use laws::queries_have_one_answer;
pub use reading::read_query;
pub use refusal::{QueryRefusal, QueryWhy};
