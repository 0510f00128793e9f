//! What every other crate stands on: holders that contracts see as lists, the reserved words and
//! identifiers of Standard ML, and the outside, which is files and sinks.
#![tactic(auto)]

mod boxed;
mod bytes;
mod fault_counts;
mod files;
mod host_files;
mod host_sink;
mod identifiers;
#[cfg(test)]
mod identifiers_tests;
mod list;
mod mem_file;
mod mem_files;
mod mem_sink;
mod no_memory;
mod read;
mod row;
#[cfg(test)]
mod row_tests;
mod script;
mod shared;
mod sink;
mod span;
mod stack;
mod steps;
mod str;
#[cfg(test)]
mod tests;
mod text;
mod word;
#[cfg(test)]
mod word_tests;
mod write;

pub use boxed::Boxed;
pub use bytes::{is_alphanumeric_byte, is_digit, is_letter, is_symbolic_byte};
pub use files::{Files, Trouble};
pub use host_files::HostFiles;
pub use host_sink::HostSink;
pub use identifiers::{
    first_dot, has_short_parts, is_alphanumeric, is_identifier, is_long, is_long_identifier,
    is_numeral, is_symbolic,
};
pub use list::List;
pub use mem_file::MemFile;
pub use mem_files::MemFiles;
pub use mem_sink::MemSink;
pub use no_memory::NoMemory;
pub use read::{ReadRefusal, files_hold_what_they_give, read_whole};
pub use row::Row;
pub use shared::Shared;
pub use sink::{Failed, Sink};
pub use span::Span;
pub use stack::Stack;
pub use steps::Steps;
pub use str::Str;
pub use text::Text;
pub use word::Word;
pub use write::write_all;
