// The lines of reports.
ghost use Rattle.std.specs.Prelude.{◌≡◌, ◌++◌, OnOk};
ghost use Rattle.search_core.specs.Search.{details_of};
ghost use Rattle.search_core.specs.Report.{converter_lines, count_text, detail_lines, instance_line, kind_word as the_kind_word, member_line, term_line};

use crate::answer::Hit;
use conv_build::Converters;
use conv_print::print_term;
use conv_terms::Term;
use linear_match::Instance;
use sig_base::{List, NoMemory, Shared, Text};
use std::alloc::Global;
use type_core::{Kind, Member, TypeName, print_scheme, print_type, push_decimal};

fn kind_word(kind: Kind) -> &'static [u8]
    ensures value { result.now ≡ the_kind_word kind }
{
    match kind {
        Kind::Val => b"val",
        Kind::Con => b"con",
        Kind::Exn => b"exn",
    }
}

/// Adds the line of a member.
pub fn push_line(
    alloc: Global,
    names: &List<TypeName>,
    member: &Member,
    out: &mut Text,
) -> Result<(), NoMemory>
    ensures pushed { OnOk result (out.new ≡ out.old ++ member_line names.now member.now) }
{
    let scheme = print_scheme(alloc, names, &member.scheme)?;
    out.extend(kind_word(member.kind))?;
    out.push(b' ')?;
    out.extend(member.path.as_slice())?;
    out.extend(b" : ")?;
    out.extend(scheme.as_slice())?;
    out.push(b'\n')
}

fn push_term(
    alloc: Global,
    names: &List<TypeName>,
    word: &[u8],
    t: &Term,
    out: &mut Text,
) -> Result<(), NoMemory>
    ensures pushed { OnOk result (out.new ≡ out.old ++ term_line names.now word.now t.now) }
{
    let term = print_term(alloc, names, t)?;
    out.extend(b"  ")?;
    out.extend(word)?;
    out.push(b' ')?;
    out.extend(term.as_slice())?;
    out.push(b'\n')
}

/// Adds the lines of the converters, where there are any.
fn push_converters(
    alloc: Global,
    names: &List<TypeName>,
    conv: &Option<Shared<Converters>>,
    out: &mut Text,
) -> Result<(), NoMemory>
    ensures pushed { OnOk result (out.new ≡ out.old ++ converter_lines names.now conv.now) }
{
    match conv {
        Some(conv) => {
            push_term(alloc, names, b"to", &conv.get().to, out)?;
            push_term(alloc, names, b"from", &conv.get().from, out)
        }
        None => Ok(()),
    }
}

/// Adds the line of the instance, where there is one.
fn push_instance(
    alloc: Global,
    names: &List<TypeName>,
    instance: &Option<Shared<Instance>>,
    out: &mut Text,
) -> Result<(), NoMemory>
    ensures pushed { OnOk result (out.new ≡ out.old ++ instance_line names.now instance.now) }
{
    match instance {
        Some(instance) => {
            let t = print_type(alloc, names, &instance.get().body)?;
            out.extend(b"  at ")?;
            out.extend(t.as_slice())?;
            out.push(b'\n')
        }
        None => Ok(()),
    }
}

/// Adds the lines of what a hit tells besides its member.
pub fn push_details(
    alloc: Global,
    names: &List<TypeName>,
    hit: &Hit,
    out: &mut Text,
) -> Result<(), NoMemory>
    ensures pushed { OnOk result (out.new ≡ out.old ++ detail_lines names.now (details_of hit.now)) }
{
    push_instance(alloc, names, &hit.instance, out)?;
    push_converters(alloc, names, &hit.conv, out)
}

/// Adds the last line: how many were found.
pub fn push_count(alloc: Global, count: usize, out: &mut Text) -> Result<(), NoMemory>
    ensures pushed { OnOk result (out.new ≡ out.old ++ count_text count) }
{
    push_decimal(alloc, out, count as u64)?;
    out.extend(b" found\n")
}
