// The lines of details, printed once for members of one type.
ghost use Rattle.std.specs.Prelude.{◌≡◌, ◌++◌, [], List, IfOk, IsTrue, OnOk};
ghost use Rattle.type_core.specs.declared.names.TypeName.{TypeName as the_name};
ghost use Rattle.search_core.specs.Printing.{ArePrinted};
ghost use Rattle.search_core.specs.Report.{converter_lines, detail_lines, instance_line};
ghost use Rattle.search_core.specs.Search.{details_of};

use crate::answer::{Hit, share};
use crate::lines::push_details;
use conv_build::Converters;
use linear_match::Instance;
use sig_base::{List, NoMemory, Shared, Text};
use std::alloc::Global;
use type_core::{Ty, TypeName, same as same_type};
use type_numbers::TypeNumbers;

/// An instance and converters, as far as there are any, and their lines.
#[derive(Drop)]
pub struct Lines {
    instance: Option<Shared<Instance>>,
    conv: Option<Shared<Converters>>,
    text: Text,
}

impl Lines {
    /// Whether they are those of this hit.
    fn are_of(&self, hit: &Hit) -> bool
        ensures value { IsTrue result → (names : List the_name)
            → instance_line names self.now.instance ++ converter_lines names self.now.conv ≡ detail_lines names (details_of hit.now) }
    {
        are_same_instances(&self.instance, &hit.instance)
            && are_same_converters(&self.conv, &hit.conv)
    }
}

fn are_same_instances(a: &Option<Shared<Instance>>, b: &Option<Shared<Instance>>) -> bool
    ensures value { IsTrue result → (names : List the_name) → instance_line names a.now ≡ instance_line names b.now }
{
    match (a, b) {
        (Some(a), Some(b)) => same_type(&a.get().body, &b.get().body),
        (None, None) => true,
        _ => false,
    }
}

fn are_same_converters(a: &Option<Shared<Converters>>, b: &Option<Shared<Converters>>) -> bool
    ensures value { IsTrue result → (names : List the_name) → converter_lines names a.now ≡ converter_lines names b.now }
{
    match (a, b) {
        (Some(a), Some(b)) => {
            conv_terms::same(&a.get().to, &b.get().to)
                && conv_terms::same(&a.get().from, &b.get().from)
        }
        (None, None) => true,
        _ => false,
    }
}

/// Lines that were printed, by the numbers of their members' types.
#[derive(Drop)]
pub struct Printed {
    types: TypeNumbers,
    pub entries: List<Lines>,
}

impl Printed {
    /// Nothing was printed.
    pub fn new(alloc: Global) -> Result<Printed, NoMemory>
        ensures none { IfOk result (λ printed. printed.entries ≡ []) }
    {
        Ok(Printed {
            types: TypeNumbers::new(alloc)?,
            entries: List::new(alloc),
        })
    }

    /// Adds the lines of what a hit tells besides its member, whose type is given. They are printed where those of a hit
    /// with the same details weren't.
    pub fn push(
        &mut self,
        alloc: Global,
        names: &List<TypeName>,
        t: &Ty,
        hit: &Hit,
        out: &mut Text,
    ) -> Result<(), NoMemory>
        requires printed { ArePrinted names.now self.old.entries }
        ensures pushed { OnOk result (out.new ≡ out.old ++ detail_lines names.now (details_of hit.now)) }
        ensures printed { OnOk result (ArePrinted names.now self.new.entries) }
    {
        let number = self.types.number(t)?;
        match self.entries.get(number) {
            Some(lines) => {
                if lines.are_of(hit) {
                    out.extend(lines.text.as_slice())
                } else {
                    push_details(alloc, names, hit, out)
                }
            }
            None => self.push_new(alloc, names, hit, out),
        }
    }

    /// Adds the lines of a hit, and keeps them.
    fn push_new(
        &mut self,
        alloc: Global,
        names: &List<TypeName>,
        hit: &Hit,
        out: &mut Text,
    ) -> Result<(), NoMemory>
        requires printed { ArePrinted names.now self.old.entries }
        ensures pushed { OnOk result (out.new ≡ out.old ++ detail_lines names.now (details_of hit.now)) }
        ensures printed { OnOk result (ArePrinted names.now self.new.entries) }
    {
        let mut text = Text::new(alloc);
        push_details(alloc, names, hit, &mut text)?;
        out.extend(text.as_slice())?;
        self.entries.push(Lines {
            instance: share(&hit.instance)?,
            conv: share(&hit.conv)?,
            text,
        })
    }
}
