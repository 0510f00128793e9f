// A library, read from its index text.
ghost use Rattle.std.specs.Prelude.{◌≡◌, ◌++◌, IfErr, IfOk};
ghost use Rattle.lib_index.specs.IndexText.{heading};
ghost use Rattle.lib_index.specs.Indexes.{IsIndexOf, IsNoIndex};
ghost use Rattle.lib_index.specs.declared.refusal.IndexRefusal.TheVariants as refusal;

use crate::library_reading::library;
use crate::refusal::IndexRefusal;
use crate::rest::Rest;
use lib_valid::is_valid_library;
use std::alloc::Global;
use type_core::Library;

const MAX_WEIGHT: u32 = 8_000_000;

/// The valid library whose index text the bytes are. `NotAnIndex` comes exactly where there is none.
pub fn decode(alloc: Global, bytes: &[u8]) -> Result<Library, IndexRefusal>
    ensures found { IfOk result (λ library. IsIndexOf bytes.now library) }
    ensures not_an_index { IfErr result (λ e. e ≡ refusal.NotAnIndex → IsNoIndex bytes.now) }
{
    match bytes.strip_prefix(b"isosrch1") {
        None => Err(IndexRefusal::NotAnIndex),
        Some(parts) => decode_parts(alloc, parts),
    }
}

// The valid library whose index text is the heading and these bytes.
fn decode_parts(alloc: Global, bytes: &[u8]) -> Result<Library, IndexRefusal>
    ensures found { IfOk result (λ library. IsIndexOf (heading ++ bytes.now) library) }
    ensures not_an_index { IfErr result (λ e. e ≡ refusal.NotAnIndex → IsNoIndex (heading ++ bytes.now)) }
{
    let rest = Rest {
        left: MAX_WEIGHT,
        bytes,
    };
    let (library, _) = library(alloc, rest)?;
    if is_valid_library(alloc, &library)? {
        Ok(library)
    } else {
        Err(IndexRefusal::NotAnIndex)
    }
}
