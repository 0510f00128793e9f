// The summary.
ghost use Rattle.std.specs.Prelude.{◌≡◌, [], ◌∷◌, ◌++◌, ◌≤◌, Ok, IfOk, OnOk, decimal};
ghost use Rattle.type_core.specs.ValidLibrary.{IsValidLibrary};
ghost use Rattle.lib_load.specs.Given.{text};
ghost use Rattle.lib_load.specs.Loading.{Loads};
ghost use Rattle.lib_gen.specs.Generator.{generated};
ghost use Rattle.lib_gen.specs.Summary.{IsSummary, summary_line};

use crate::generating::generate;
use crate::totals::{Totals, totals_of};
use lib_load::library_of_text;
use sig_base::{NoMemory, Text};
use std::alloc::Global;
use type_core::{Library, push_decimal};

const MAX_BYTES: usize = 4_194_304;

/// The summary of the signature of `n` values: how many these are, how many queries there are among them, and how many
/// hits the queries have in all, up to isomorphism and for more general values.
pub fn gen_summary(alloc: Global, n: u32) -> Result<Text, NoMemory>
    requires some { 1 ≤ n }
    requires few { n ≤ 20000 }
    ensures summary { IfOk result (IsSummary n) }
{
    let library = generated_library(alloc, n)?;
    let totals = totals_of(alloc, &library, n)?;
    line(alloc, n, totals)
}

/// The library of the signature of `n` values, which is not refused.
fn generated_library(alloc: Global, n: u32) -> Result<Library, NoMemory>
    requires some { 1 ≤ n }
    requires few { n ≤ 20000 }
    ensures loaded { IfOk result (λ library. Loads 1 (Ok library) (text (generated n) ∷ [])) }
    ensures valid { IfOk result IsValidLibrary }
{
    let text = generate(alloc, n)?;
    if text.len() > MAX_BYTES {
        return Err(NoMemory);
    }
    match library_of_text(alloc, text.as_slice()) {
        Ok(library) => Ok(library),
        Err(_) => Err(NoMemory),
    }
}

fn line(alloc: Global, n: u32, totals: Totals) -> Result<Text, NoMemory>
    ensures value { IfOk result (λ line. line ≡ summary_line n totals) }
{
    let mut line = Text::new(alloc);
    push_number(alloc, b"members ", u64::from(n), &mut line)?;
    push_number(alloc, b", queries ", totals.queries as u64, &mut line)?;
    push_number(alloc, b", iso ", totals.iso as u64, &mut line)?;
    push_number(alloc, b", general ", totals.general as u64, &mut line)?;
    line.push(b'\n')?;
    Ok(line)
}

fn push_number(alloc: Global, word: &[u8], n: u64, out: &mut Text) -> Result<(), NoMemory>
    ensures pushed { OnOk result (out.new ≡ out.old ++ word.now ++ decimal n) }
{
    out.extend(word)?;
    push_decimal(alloc, out, n)
}
