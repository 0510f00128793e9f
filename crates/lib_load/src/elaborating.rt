// The elaboration of a file's text.
ghost use Rattle.std.specs.Prelude.{◌≡◌, ◌≤◌, length, IfErr};
ghost use Rattle.sml_lexer.specs.Tokens.{tokens as tokens_of};
ghost use Rattle.sig_parser.specs.Files.{File};
ghost use Rattle.ty_parser.specs.Sorts.{sorts_of};
ghost use Rattle.elab_types.specs.Sources.{texts_of};
ghost use Rattle.elab_types.specs.Stages.{Reads, Tells, placed};
ghost use Rattle.lib_load.specs.Files.{IsWithin, files_over, flaw_of, meaning_over};

use crate::refusals::{Fault, FileRefusal};
use elab_types::{no_phrase, no_tokens, start_of};
use sig_elab::{Elab, ElabRefusal};
use sig_parser::{SourceFile, parse_file};
use sml_lexer::{Token, lex};
use std::alloc::Global;

/// The elaborator with a file of this text after those before it; `Refused` comes exactly where the file is refused.
pub fn with_text(alloc: Global, bytes: &[u8], elab: Elab) -> Result<Elab, FileRefusal>
    requires size { length bytes.now ≤ 4194304 }
    ensures value { Tells flaw_of (Reads (files_over elab) bytes.now) result }
    ensures within { IfErr result (λ r. IsWithin bytes.now r) }
{
    match lex(alloc, bytes) {
        Ok(tokens) => with_tokens(alloc, bytes, tokens.as_slice(), elab),
        Err(refusal) => Err(FileRefusal::from(no_tokens(bytes, refusal))),
    }
}

// The elaborator with a file that has these tokens.
fn with_tokens(
    alloc: Global,
    bytes: &[u8],
    tokens: &[Token],
    elab: Elab,
) -> Result<Elab, FileRefusal>
    requires size { length bytes.now ≤ 4194304 }
    requires tokens { tokens_of bytes.now tokens.now }
    ensures value { Tells flaw_of (Reads (files_over elab) bytes.now) result }
    ensures within { IfErr result (λ r. IsWithin bytes.now r) }
{
    match parse_file(alloc, bytes, tokens) {
        Ok(file) => with_tree(bytes, tokens, &file, elab),
        Err(refusal) => Err(FileRefusal::from(no_phrase(bytes, tokens, refusal))),
    }
}

// The elaborator with a file that is this tree.
fn with_tree(
    bytes: &[u8],
    tokens: &[Token],
    file: &SourceFile,
    mut elab: Elab,
) -> Result<Elab, FileRefusal>
    requires size { length bytes.now ≤ 4194304 }
    requires tokens { tokens_of bytes.now tokens.now }
    requires phrase { File (sorts_of bytes.now tokens.now) file.now }
    ensures value { Tells flaw_of (λ r. placed bytes.now tokens.now (meaning_over elab (texts_of bytes.now tokens.now) file.now) ≡ r) result }
    ensures within { IfErr result (λ r. IsWithin bytes.now r) }
{
    match elab.add_file(file, tokens, bytes) {
        Ok(()) => Ok(elab),
        Err(ElabRefusal::Refused(why, k)) => {
            let place = start_of(bytes, tokens, k);
            Err(FileRefusal::Refused(Fault::Elab(why), place))
        }
        Err(ElabRefusal::NoMemory) => Err(FileRefusal::NoMemory),
    }
}
