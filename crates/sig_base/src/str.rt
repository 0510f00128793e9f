// Text of UTF-8.
ghost use Rattle.std.specs.Prelude.{◌≡◌, IfOk};

use crate::NoMemory;
use std::alloc::Global;
use std::marker::Model;

/// A `String` that contracts see as the list of its bytes.
#[derive(Debug, Drop)]
pub struct Str {
    text: String,
}

impl Model for Str {
    ghost use Rattle.std.specs.Coded.{coded_list, coded_ℕ};
    ghost use Rattle.std.specs.Prelude.{List, string_bytes, ℕ};

    ghost Value = { List ℕ };

    ghost coded = { coded_list coded_ℕ };

    ghost view = { λ text. string_bytes text.text };
}

impl Str {
    /// A copy of a text.
    pub fn copy_of(alloc: Global, text: &str) -> Result<Str, NoMemory>
        ensures value { IfOk result (λ copy. copy ≡ text.now) }
    {
        match String::from_str(alloc, text) {
            Ok(text) => Ok(Str { text }),
            Err(_) => Err(NoMemory),
        }
    }

    /// The text that is held.
    pub fn as_str(&self) -> &str
        ensures value { result.now ≡ self.now }
    {
        self.text.as_str()
    }
}
