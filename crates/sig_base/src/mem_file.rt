// A file in memory.
use crate::{List, Text};

/// A path and the bytes there.
#[derive(Drop)]
pub struct MemFile {
    pub path: Text,
    pub bytes: List<u8>,
}
