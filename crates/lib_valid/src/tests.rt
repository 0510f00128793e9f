// A small valid library, and the same with one thing more.
use crate::is_valid_library;
use sig_base::{List, NoMemory, Row, Text};
use std::alloc::Global;
use std::test::Fail;
use type_core::{
    Equality, Kind, Library, Member, NameId, Scheme, Ty, Tycon, TypeFn, TypeName, Unit, UnitKind,
    VarId, initial_names,
};

fn push_unit(alloc: Global, lib: &mut Library, id: &[u8]) -> Result<(), NoMemory> {
    let id = Text::from_slice(alloc, id)?;
    lib.units.push(Unit {
        kind: UnitKind::Sig,
        id,
    })
}

fn push_name(
    alloc: Global,
    lib: &mut Library,
    path: &[u8],
    arity: u32,
    equality: Equality,
    external: bool,
) -> Result<(), NoMemory> {
    let path = Text::from_slice(alloc, path)?;
    lib.names.push(TypeName {
        path,
        arity,
        equality,
        external,
    })
}

fn push_tycon(
    alloc: Global,
    lib: &mut Library,
    path: &[u8],
    arity: u32,
    body: Ty,
) -> Result<(), NoMemory> {
    let path = Text::from_slice(alloc, path)?;
    lib.tycons.push(Tycon {
        path,
        fun: TypeFn { arity, body },
    })
}

fn push_member(
    alloc: Global,
    lib: &mut Library,
    path: &[u8],
    vars: u32,
    body: Ty,
) -> Result<(), NoMemory> {
    let path = Text::from_slice(alloc, path)?;
    lib.members.push(Member {
        kind: Kind::Val,
        path,
        scheme: Scheme { vars, body },
    })
}

fn variable(n: u32) -> Ty {
    Ty::Var(VarId { n, eq: false })
}

fn named(n: u32) -> Ty {
    Ty::Con(NameId(n), Row::empty())
}

/// The unit `S` with the type `S.t` and the value `S.x`, and the external name `M.map` of two arguments.
fn small(alloc: Global) -> Result<Library, NoMemory> {
    let mut lib = Library {
        units: List::new(alloc),
        names: initial_names(alloc)?,
        tycons: List::new(alloc),
        members: List::new(alloc),
    };
    push_unit(alloc, &mut lib, b"S")?;
    push_name(alloc, &mut lib, b"S.t", 0, Equality::Never, false)?;
    push_name(alloc, &mut lib, b"M.map", 2, Equality::IfArgs, true)?;
    push_tycon(alloc, &mut lib, b"S.t", 0, named(14))?;
    push_member(alloc, &mut lib, b"S.x", 1, variable(0))?;
    Ok(lib)
}

fn takes_unit(alloc: Global, id: &[u8]) -> Result<bool, NoMemory> {
    let mut lib = small(alloc)?;
    push_unit(alloc, &mut lib, id)?;
    is_valid_library(alloc, &lib)
}

fn takes_name(
    alloc: Global,
    path: &[u8],
    arity: u32,
    equality: Equality,
    external: bool,
) -> Result<bool, NoMemory> {
    let mut lib = small(alloc)?;
    push_name(alloc, &mut lib, path, arity, equality, external)?;
    is_valid_library(alloc, &lib)
}

fn takes_tycon(alloc: Global, path: &[u8], arity: u32, body: Ty) -> Result<bool, NoMemory> {
    let mut lib = small(alloc)?;
    push_tycon(alloc, &mut lib, path, arity, body)?;
    is_valid_library(alloc, &lib)
}

fn takes_member(alloc: Global, path: &[u8], vars: u32, body: Ty) -> Result<bool, NoMemory> {
    let mut lib = small(alloc)?;
    push_member(alloc, &mut lib, path, vars, body)?;
    is_valid_library(alloc, &lib)
}

#[test]
fn units_have_distinct_identifiers(rt: HostRuntime) -> Result<(), Fail> {
    let alloc = rt.alloc();
    let cases = [
        (b"T".as_slice(), true),
        (b"S", false),
        (b"sig", false),
        (b"*", false),
        (b"S.T", false),
    ];
    for (id, wanted) in cases {
        assert!(rt; takes_unit(alloc, id)? == wanted);
    }
    Ok(())
}

#[test]
fn names_keep_the_rules_of_their_sort(rt: HostRuntime) -> Result<(), Fail> {
    let alloc = rt.alloc();
    let cases = [
        (b"M.map".as_slice(), 1, Equality::IfArgs, true, true),
        (b"M.map", 2, Equality::IfArgs, true, false),
        (b"M.set", 1999, Equality::IfArgs, true, true),
        (b"M.set", 2000, Equality::IfArgs, true, false),
        (b"M.set", 1, Equality::Never, true, false),
        (b"S.set", 1, Equality::IfArgs, true, false),
        (b"set", 1, Equality::IfArgs, true, false),
        (b"S.t", 0, Equality::Never, false, false),
        (b"S.u", 0, Equality::Never, false, false),
    ];
    for (path, arity, equality, external, wanted) in cases {
        assert!(rt; takes_name(alloc, path, arity, equality, external)? == wanted);
    }
    Ok(())
}

#[test]
fn type_constructors_have_paths_and_functions(rt: HostRuntime) -> Result<(), Fail> {
    let alloc = rt.alloc();
    let cases = [
        (b"S.u".as_slice(), 1, true),
        (b"S.A.+", 1, true),
        (b"S.t", 1, false),
        (b"S.*", 1, false),
        (b"T.u", 1, false),
        (b"u", 1, false),
        (b"S.u", 0, false),
        (b"S.u", 2000, false),
    ];
    for (path, arity, wanted) in cases {
        assert!(rt; takes_tycon(alloc, path, arity, variable(0))? == wanted);
    }
    Ok(())
}

#[test]
fn members_have_paths_and_schemes(rt: HostRuntime) -> Result<(), Fail> {
    let alloc = rt.alloc();
    let cases = [
        (b"S.y".as_slice(), 1, 0, true),
        (b"S.=", 1, 0, true),
        (b"S.*", 1, 0, true),
        (b"S.x", 1, 0, false),
        (b"T.x", 1, 0, false),
        (b"S.y", 2, 0, false),
        (b"S.y", 1, 1, false),
    ];
    for (path, vars, n, wanted) in cases {
        assert!(rt; takes_member(alloc, path, vars, variable(n))? == wanted);
    }
    Ok(())
}

#[test]
fn types_are_over_the_names(rt: HostRuntime) -> Result<(), Fail> {
    let alloc = rt.alloc();
    let cases = [(14, true), (15, false), (16, false)];
    for (n, wanted) in cases {
        assert!(rt; takes_member(alloc, b"S.y", 0, named(n))? == wanted);
    }
    Ok(())
}
