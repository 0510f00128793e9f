// What a search is asked for, and what it answers.
ghost use Rattle.std.specs.Prelude.{◌≡◌, IfOk};

use conv_build::Converters;
use iso_normal::PairTree;
use linear_match::Instance;
use sig_base::{List, NoMemory, Shared};

/// How schemes are compared.
#[derive(Clone, Copy, Debug, PartialEq, Eq)]
pub enum Mode {
    /// Whether they are equal but for the names of variables.
    Same,
    /// Whether they are equal up to isomorphism.
    Iso,
    /// Whether an instance of the member's is linearly isomorphic to the query's type.
    General,
}

/// What a mode tells of a member that was found. Members of one type share it.
#[derive(Drop)]
pub struct Details {
    pub pairing: Option<Shared<PairTree>>,
    pub instance: Option<Shared<Instance>>,
    pub conv: Option<Shared<Converters>>,
}

impl Details {
    /// The same details once more; nothing is copied.
    pub fn share(&self) -> Result<Details, NoMemory>
        ensures value { IfOk result (λ details. details ≡ self.now) }
    {
        Ok(Details {
            pairing: share(&self.pairing)?,
            instance: share(&self.instance)?,
            conv: share(&self.conv)?,
        })
    }
}

/// One more owner of the value, where there is one.
pub fn share<T: Drop>(value: &Option<Shared<T>>) -> Result<Option<Shared<T>>, NoMemory>
    ensures value { IfOk result (λ shared. shared ≡ value.now) }
{
    match value {
        Some(value) => Ok(Some(value.share()?)),
        None => Ok(None),
    }
}

/// A member that was found.
#[derive(Drop)]
pub struct Hit {
    /// The member's place in the library.
    pub member: u32,
    /// The least consistent pairing of the member's coordinates with the query's, and in mode `General` the least pairing
    /// of the instance's with the query's that has identical heads; `None` in mode `Same` alone.
    pub pairing: Option<Shared<PairTree>>,
    /// The instance of the member's scheme that is linearly isomorphic to the query's type, told by the least word; in
    /// mode `General` alone.
    pub instance: Option<Shared<Instance>>,
    /// The converters along the pairing from the member's type, in the query's variables, or from the instance, to the
    /// query's type and back; `None` in mode `Same` alone.
    pub conv: Option<Shared<Converters>>,
}

/// The members that were found, in the library's order.
#[derive(Drop)]
pub struct Answer {
    pub hits: List<Hit>,
}
