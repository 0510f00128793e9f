// The parser of signature files.
ghost use Rattle.std.specs.Prelude.{◌≡◌, ◌≤◌, ◌⊎◌, Some, Ok, Err, length, IfOk, IfErr, OnOk};
ghost use Rattle.sml_lexer.specs.Tokens.{tokens as tokens_of};
ghost use Rattle.ty_parser.specs.Sorts.{sorts_of};
ghost use Rattle.ty_parser.specs.Phrases.{IsShallow, Refuses, Tells, most_open};
ghost use Rattle.ty_parser.specs.declared.tree.ParseRefusal.{ParseRefusal as AParseRefusal};
ghost use Rattle.ty_parser.specs.declared.tree.ParseRefusal.TheVariants.{NoMemory};
ghost use Rattle.sig_parser.specs.Files.{File};
ghost use Rattle.sig_parser.specs.machine.Machine as machine;
ghost use Rattle.sig_parser.specs.machine.Views.{state_of};
ghost use Rattle.sig_parser.specs.declared.tree.SourceFile.{SourceFile};

use crate::point::Reading;
use crate::tree::SourceFile;
use sml_lexer::Token;
use std::alloc::Global;
use ty_parser::{ParseRefusal, Sort, sort_of};

// How many of the tokens `(`, `{` and `sig` may be open.
const MOST_OPEN: u32 = 200;

/// The file that the tokens are, all of them: they are what `lex` gave for the bytes (the Definition of
/// Standard ML, sections 2.4 and 3.4, as specs/Grammar.antt has it). At most 200 of the tokens `(`, `{`
/// and `sig` may be open.
/// `Syntax(k)` comes exactly where the first k tokens begin a file and no more of them do, or k is the
/// number of tokens and they are no file. `TooDeep(k)` comes exactly where token k is a `(`, a `{` or a
/// `sig` that can stand there and 200 are open before it. What comes first decides.
pub fn parse_file(alloc: Global, bytes: &[u8], tokens: &[Token]) -> Result<SourceFile, ParseRefusal>
    requires size { length bytes.now ≤ 4194304 }
    requires tokens { tokens_of bytes.now tokens.now }
    ensures tree { IfOk result (λ f. File (sorts_of bytes.now tokens.now) f) }
    ensures shallow { IfOk result (λ _. IsShallow File 0 (sorts_of bytes.now tokens.now) (length tokens.now)) }
    ensures refusal { IfErr result (λ refusal. Tells File (sorts_of bytes.now tokens.now) refusal) }
    ensures only_tree { (f : SourceFile) → File (sorts_of bytes.now tokens.now) f
        → IsShallow File 0 (sorts_of bytes.now tokens.now) (length tokens.now)
        → (result ≡ Ok f) ⊎ (result ≡ Err NoMemory) }
    ensures only_refusal { (refusal : AParseRefusal) → Refuses File (sorts_of bytes.now tokens.now) refusal
        → (result ≡ Err refusal) ⊎ (result ≡ Err NoMemory) }
{
    read_file(alloc, bytes, tokens)
}

fn read_file(alloc: Global, bytes: &[u8], tokens: &[Token]) -> Result<SourceFile, ParseRefusal>
    requires size { length bytes.now ≤ 4194304 }
    requires tokens { tokens_of bytes.now tokens.now }
    ensures tree { IfOk result (λ f. File (sorts_of bytes.now tokens.now) f) }
    ensures shallow { IfOk result (λ _. IsShallow File 0 (sorts_of bytes.now tokens.now) (length tokens.now)) }
    ensures refusal { IfErr result (λ refusal. Tells File (sorts_of bytes.now tokens.now) refusal) }
{
    let mut reading = Reading::new(alloc);
    let mut place: u32 = 0;
    'tokens: while (place as usize) < tokens.len() {
        let sort = sort_of(bytes, tokens[place as usize]);
        step(alloc, &mut reading, place, sort)?;
        place += 1;
    }
    ended(alloc, reading, place)
}

// Hands over a token with this number and sort.
fn step(alloc: Global, reading: &mut Reading, place: u32, sort: Sort) -> Result<(), ParseRefusal>
    requires low { machine.depth (state_of reading.old) ≤ most_open }
    ensures next { OnOk result (machine.step (state_of reading.old) (place, sort)
        ≡ Some (state_of reading.new)) }
    ensures low { OnOk result (machine.depth (state_of reading.new) ≤ most_open) }
    ensures refusal { IfErr result (λ e. machine.Tells (state_of reading.old) place sort e) }
{
    let can = reading.next(alloc, place, sort)?;
    if !can {
        return Err(ParseRefusal::Syntax(place));
    }
    if reading.depth() > MOST_OPEN {
        return Err(ParseRefusal::TooDeep(place));
    }
    Ok(())
}

// What reading gives at the end of the tokens, where there are so many.
fn ended(alloc: Global, mut reading: Reading, count: u32) -> Result<SourceFile, ParseRefusal>
    ensures tree { IfOk result (λ f. machine.finish (state_of reading) ≡ Some f) }
    ensures refusal { IfErr result (λ e. machine.TellsEnd (state_of reading) count e) }
{
    let can = reading.finish(alloc)?;
    if !can {
        return Err(ParseRefusal::Syntax(count));
    }
    let decs = reading.decs.take_all()?;
    Ok(SourceFile { decs })
}
