// The reports.
ghost use Rattle.std.specs.Prelude.{◌≡◌, ◌<◌, ◌++◌, length, IfOk, OnOk};
ghost use Rattle.search_core.specs.Printing.{ArePrinted};
ghost use Rattle.search_core.specs.Report.{AreMembers, entry_text, list_text, report_text};

use crate::answer::{Answer, Hit};
use crate::lines::{push_count, push_line};
use crate::printed::Printed;
use sig_base::{NoMemory, Text};
use std::alloc::Global;
use type_core::Library;

/// The report of a search: the line of each hit, with its instance and its converters on lines of their own where it has
/// them and not only names are asked for, and how many the hits are. What equal hits tell is printed once.
pub fn report(
    alloc: Global,
    lib: &Library,
    answer: &Answer,
    names_only: bool,
) -> Result<Text, NoMemory>
    requires members { AreMembers lib.now answer.now.hits }
    ensures value { IfOk result (λ text. text ≡ report_text lib.now answer.now.hits names_only) }
{
    let mut printed = Printed::new(alloc)?;
    let mut text = Text::new(alloc);
    for hit in answer.hits.as_slice() {
        push_entry(alloc, lib, hit, names_only, &mut printed, &mut text)?;
    }
    push_count(alloc, answer.hits.len(), &mut text)?;
    Ok(text)
}

/// Adds the entry of a hit.
fn push_entry(
    alloc: Global,
    lib: &Library,
    hit: &Hit,
    names_only: bool,
    printed: &mut Printed,
    out: &mut Text,
) -> Result<(), NoMemory>
    requires member { hit.now.member < length lib.now.members }
    requires printed { ArePrinted lib.now.names printed.old.entries }
    ensures pushed { OnOk result (out.new ≡ out.old ++ entry_text lib.now names_only hit.now) }
    ensures printed { OnOk result (ArePrinted lib.now.names printed.new.entries) }
{
    let members = lib.members.as_slice();
    let member = &members[hit.member as usize];
    push_line(alloc, &lib.names, member, out)?;
    if names_only {
        Ok(())
    } else {
        printed.push(alloc, &lib.names, &member.scheme.body, hit, out)
    }
}

/// The report of a whole library: the line of each member, and how many they are.
pub fn list_report(alloc: Global, lib: &Library) -> Result<Text, NoMemory>
    ensures value { IfOk result (λ text. text ≡ list_text lib.now) }
{
    let mut text = Text::new(alloc);
    for member in lib.members.as_slice() {
        push_line(alloc, &lib.names, member, &mut text)?;
    }
    push_count(alloc, lib.members.len(), &mut text)?;
    Ok(text)
}
