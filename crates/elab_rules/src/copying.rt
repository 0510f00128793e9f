// Copies of what was described.
ghost use Rattle.std.specs.Prelude.{◌≡◌, IfOk};

use crate::entry::ValueEntry;
use sig_base::{List, NoMemory, Text};
use std::alloc::Global;
use type_core::{Scheme, TypeFn, TypeName, copy};

/// A copy of a type function.
pub fn copy_function(alloc: Global, f: &TypeFn) -> Result<TypeFn, NoMemory>
    ensures value { IfOk result (λ copy. copy ≡ f.now) }
{
    Ok(TypeFn {
        arity: f.arity,
        body: copy(alloc, &f.body)?,
    })
}

/// A copy of a scheme.
pub fn copy_scheme(alloc: Global, scheme: &Scheme) -> Result<Scheme, NoMemory>
    ensures value { IfOk result (λ copy. copy ≡ scheme.now) }
{
    Ok(Scheme {
        vars: scheme.vars,
        body: copy(alloc, &scheme.body)?,
    })
}

/// Copies of texts.
pub fn copy_texts(alloc: Global, texts: &[Text]) -> Result<List<Text>, NoMemory>
    ensures value { IfOk result (λ copies. copies ≡ texts.now) }
{
    let mut copies = List::new(alloc);
    for text in texts {
        copies.push(Text::from_slice(alloc, text.as_slice())?)?;
    }
    Ok(copies)
}

/// A copy of a value.
pub fn copy_value(alloc: Global, entry: &ValueEntry) -> Result<ValueEntry, NoMemory>
    ensures value { IfOk result (λ copy. copy ≡ entry.now) }
{
    Ok(ValueEntry {
        id: Text::from_slice(alloc, entry.id.as_slice())?,
        kind: entry.kind,
        scheme: copy_scheme(alloc, &entry.scheme)?,
    })
}

/// A copy of a name.
pub fn copy_name(alloc: Global, name: &TypeName) -> Result<TypeName, NoMemory>
    ensures value { IfOk result (λ copy. copy ≡ name.now) }
{
    Ok(TypeName {
        path: Text::from_slice(alloc, name.path.as_slice())?,
        arity: name.arity,
        equality: name.equality,
        external: name.external,
    })
}
