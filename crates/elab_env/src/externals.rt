// The numbers of external names.
ghost use Rattle.std.specs.Prelude.{◌≡◌, ℕ, List, None, IfOk, OnErr, OnOk};
ghost use Rattle.elab_env.specs.Externals.{number_held, number_with};

use sig_base::NoMemory;
use std::alloc::Global;
use std::collections::HashMap;
use type_core::TypeName;

/// The numbers of external names, by arity and path.
#[derive(Drop)]
pub struct Externals {
    pub numbers: HashMap<(u32, Vec<u8>), u32>,
}

impl Externals {
    pub fn new(alloc: Global) -> Externals
        ensures empty { (path : List ℕ) (arity : ℕ) → number_held result path arity ≡ None }
    {
        Externals {
            numbers: HashMap::new(alloc),
        }
    }

    /// The number that is held for this path and arity.
    pub fn find(&self, alloc: Global, path: &[u8], arity: u32) -> Result<Option<u32>, NoMemory>
        ensures value { IfOk result (λ n. n ≡ number_held self.now path.now arity) }
    {
        let key = (arity, Vec::from_slice(alloc, path)?);
        Ok(self.numbers.get(&key).copied())
    }

    /// Holds the number of this name, if it is external and the first of its path and arity.
    pub fn add(&mut self, alloc: Global, name: &TypeName, n: u32) -> Result<(), NoMemory>
        ensures held { OnOk result ((path : List ℕ) (arity : ℕ) → number_held self.new path arity ≡ number_with name.now n path arity (number_held self.old path arity)) }
        ensures kept { OnErr result ((path : List ℕ) (arity : ℕ) → number_held self.new path arity ≡ number_held self.old path arity) }
    {
        if !name.external {
            return Ok(());
        }
        match self.find(alloc, name.path.as_slice(), name.arity)? {
            Some(_) => Ok(()),
            None => {
                let key = (name.arity, Vec::from_slice(alloc, name.path.as_slice())?);
                self.numbers.insert(key, n)?;
                Ok(())
            }
        }
    }
}
