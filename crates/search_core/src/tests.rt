// Libraries by hand, and the reports of searches in them.
ghost use Rattle.std.specs.Prelude.{◌<◌, ◌≤◌, ◌^◌, length, IfOk};
ghost use Rattle.type_core.specs.Schemes.{IsScheme};
ghost use Rattle.type_core.specs.Size.{size_of};
ghost use Rattle.type_core.specs.Types.{IsType};
ghost use Rattle.search_core.specs.Search.{CanBeSearched, CanBeSearchedFor};

use crate::{Answer, Mode, hits_are_members, list_report, report, search};
use iso_normal::PairTree;
use sig_base::{List, NoMemory, Row, Shared, Text};
use std::alloc::Global;
use std::test::Fail;
use type_core::{
    Equality, Kind, Library, Member, NameId, Scheme, Ty, TypeName, VarId, close, initial_names,
    is_type, normal_size, size,
};

/// A kind, a path, and a type in postfix notation.
type Described = (Kind, &'static [u8], &'static [u8]);

const L: [Described; 6] = [
    (Kind::Val, b"L.map", b"ab>aLbL>>"),
    (Kind::Val, b"L.add", b"II*I>"),
    (Kind::Val, b"L.divMod", b"II*II*>"),
    (Kind::Val, b"L.ignore", b"a1>"),
    (Kind::Val, b"L.eq", b"ii*B>"),
    (Kind::Val, b"L.curry", b"ab*c>abc>>>"),
];

/// The type last read; unit where there is none.
fn top(stack: &mut List<Ty>) -> Ty {
    match stack.pop() {
        Some(t) => t,
        None => Ty::Tup(Row::empty()),
    }
}

/// The tuple of so many types.
fn tuple(alloc: Global, stack: &mut List<Ty>, count: usize) -> Result<Ty, NoMemory> {
    let mut last = List::new(alloc);
    for _ in 0..count {
        last.push(top(stack))?;
    }
    let mut components = List::new(alloc);
    for _ in 0..count {
        components.push(top(&mut last))?;
    }
    Ok(Ty::Tup(Row::new(alloc, components)?))
}

fn arrow(alloc: Global, stack: &mut List<Ty>) -> Result<Ty, NoMemory> {
    let to = Shared::new(alloc, top(stack))?;
    let from = Shared::new(alloc, top(stack))?;
    Ok(Ty::Arrow(from, to))
}

fn named(name: u32) -> Ty {
    Ty::Con(NameId(name), Row::empty())
}

fn applied(alloc: Global, name: u32, t: Ty) -> Result<Ty, NoMemory> {
    let mut arguments = List::new(alloc);
    arguments.push(t)?;
    Ok(Ty::Con(NameId(name), Row::new(alloc, arguments)?))
}

/// The type that a byte makes of those read before it.
fn step(alloc: Global, stack: &mut List<Ty>, byte: u8) -> Result<Ty, NoMemory> {
    match byte {
        b'1' => Ok(Ty::Tup(Row::empty())),
        b'I' => Ok(named(0)),
        b'D' => Ok(named(2)),
        b'S' => Ok(named(4)),
        b'X' => Ok(named(6)),
        b'B' => Ok(named(7)),
        b'N' => Ok(named(14)),
        b'R' => Ok(named(15)),
        b'L' => applied(alloc, 9, top(stack)),
        b'T' => applied(alloc, 16, top(stack)),
        b'*' => tuple(alloc, stack, 2),
        b'3' => tuple(alloc, stack, 3),
        b'>' => arrow(alloc, stack),
        letter => {
            let n = letter.wrapping_sub(b'a') as u32;
            Ok(Ty::Var(VarId { n, eq: n >= 8 }))
        }
    }
}

/// The scheme of a type in postfix notation: `a` to `h` are variables, later letters are variables with the equality
/// mark, `1` is unit, `I` int, `D` real, `S` string, `X` exn, `B` bool, `N` INTEGER.int, `R` StringCvt.radix, `L` list, `T`
/// O.tree, `*` a pair, `3` a triple and `>` an arrow.
fn read(alloc: Global, text: &[u8]) -> Result<Scheme, NoMemory>
    ensures query { IfOk result CanBeSearchedFor }
    ensures small { IfOk result (λ s. size_of s.body < 2 ^ 32) }
{
    let mut stack = List::new(alloc);
    for byte in text {
        let t = step(alloc, &mut stack, *byte)?;
        stack.push(t)?;
    }
    let t = top(&mut stack);
    if size(&t) > 1000 {
        return Err(NoMemory);
    }
    let scheme = close(alloc, &t)?;
    if !is_type(&scheme.body) || size(&scheme.body) > 1000 || normal_size(&scheme.body) > 8000 {
        return Err(NoMemory);
    }
    Ok(scheme)
}

fn push_name(
    alloc: Global,
    names: &mut List<TypeName>,
    path: &[u8],
    arity: u32,
) -> Result<(), NoMemory> {
    let path = Text::from_slice(alloc, path)?;
    names.push(TypeName {
        path,
        arity,
        equality: Equality::IfArgs,
        external: true,
    })
}

/// The initial names, and three more.
fn names(alloc: Global) -> Result<List<TypeName>, NoMemory> {
    let mut names = initial_names(alloc)?;
    push_name(alloc, &mut names, b"INTEGER.int", 0)?;
    push_name(alloc, &mut names, b"StringCvt.radix", 0)?;
    push_name(alloc, &mut names, b"O.tree", 1)?;
    Ok(names)
}

fn library(alloc: Global, described: &[Described]) -> Result<Library, NoMemory>
    ensures searched { IfOk result CanBeSearched }
{
    let mut members = List::new(alloc);
    for one in described {
        if members.len() >= 1000 {
            return Err(NoMemory);
        }
        let path = Text::from_slice(alloc, one.1)?;
        let scheme = read(alloc, one.2)?;
        members.push(Member {
            kind: one.0,
            path,
            scheme,
        })?;
    }
    Ok(Library {
        units: List::new(alloc),
        names: names(alloc)?,
        tycons: List::new(alloc),
        members,
    })
}

/// The report of the query among the members.
fn reported(
    alloc: Global,
    mode: Mode,
    query: &[u8],
    members: &[Described],
    names_only: bool,
) -> Result<Text, NoMemory> {
    let query = read(alloc, query)?;
    let library = library(alloc, members)?;
    let answer = search(alloc, &library, mode, &query)?;
    hits_are_members();
    report(alloc, &library, &answer, names_only)
}

/// The names of the query's hits among the members.
fn found(alloc: Global, mode: Mode, query: &[u8], members: &[Described]) -> Result<Text, NoMemory> {
    reported(alloc, mode, query, members, true)
}

#[test]
fn searches(rt: HostRuntime) -> Result<(), Fail> {
    let alloc = rt.alloc();
    let map = b"val L.map : ('a -> 'b) -> 'a list -> 'b list\n1 found\n".as_slice();
    let none = b"0 found\n".as_slice();
    let cases = [
        (Mode::Same, b"ba>bLaL>>".as_slice(), map),
        (Mode::Same, b"III>>", none),
        (Mode::Iso, b"aLab>*bL>", map),
        (
            Mode::Iso,
            b"III>>",
            b"val L.add : int * int -> int\n1 found\n",
        ),
        (
            Mode::Iso,
            b"II*I>II*I>*",
            b"val L.divMod : int * int -> int * int\n1 found\n",
        ),
        (
            Mode::Iso,
            b"II*II*>",
            b"val L.divMod : int * int -> int * int\n1 found\n",
        ),
        (Mode::Iso, b"1", b"val L.ignore : 'a -> unit\n1 found\n"),
        (Mode::Iso, b"aa*B>", none),
        (
            Mode::General,
            b"II*B>",
            b"val L.eq : ''a * ''a -> bool\n1 found\n",
        ),
        (Mode::General, b"DD*B>", none),
    ];
    for (mode, query, wanted) in cases {
        let text = found(alloc, mode, query, &L)?;
        assert!(rt; text.as_slice() == wanted);
    }
    Ok(())
}

#[test]
fn what_is_equal_up_to_isomorphism(rt: HostRuntime) -> Result<(), Fail> {
    let alloc = rt.alloc();
    let members: [Described; 7] = [
        (Kind::Val, b"G.d", b"III*>"),
        (Kind::Val, b"G.u", b"I1>"),
        (Kind::Val, b"G.w", b"1B>"),
        (Kind::Val, b"Q.g", b"IS*LI>"),
        (Kind::Val, b"K.k", b"ab*B>"),
        (Kind::Val, b"V.c", b"ab>ba>*"),
        (Kind::Val, b"V.l", b"abLI>>"),
    ];
    let cases = [
        (
            b"II>II>*".as_slice(),
            b"val G.d : int -> int * int\n1 found\n".as_slice(),
        ),
        (b"1", b"val G.u : int -> unit\n1 found\n"),
        (b"B", b"val G.w : unit -> bool\n1 found\n"),
        (b"SI*LI>", b"0 found\n"),
        (b"aa*B>", b"0 found\n"),
        (b"ab>ab>*", b"0 found\n"),
        (b"ba>ab>*", b"val V.c : ('a -> 'b) * ('b -> 'a)\n1 found\n"),
        (b"aLb*I>", b"val V.l : 'a -> 'b list -> int\n1 found\n"),
    ];
    for (query, wanted) in cases {
        let text = found(alloc, Mode::Iso, query, &members)?;
        assert!(rt; text.as_slice() == wanted);
    }
    Ok(())
}

#[test]
fn kinds_of_members(rt: HostRuntime) -> Result<(), Fail> {
    let alloc = rt.alloc();
    let members: [Described; 3] = [
        (Kind::Con, b"O.Leaf", b"aT"),
        (Kind::Con, b"O.Node", b"aTaaT**aT>"),
        (Kind::Exn, b"O.Empty", b"SX>"),
    ];
    let text = list_report(alloc, &library(alloc, &members)?)?;
    let wanted = b"con O.Leaf : 'a O.tree
con O.Node : 'a O.tree * ('a * 'a O.tree) -> 'a O.tree
exn O.Empty : string -> exn
3 found
";
    assert!(rt; text.as_slice() == wanted.as_slice());
    Ok(())
}

// Variables that vanish, with marks and without, before and after those that stay.
const V: [Described; 2] = [
    (Kind::Val, b"V.drop", b"i1>bLc1>b>>*"),
    (Kind::Val, b"V.swap", b"ai1>>cdL>*"),
];

// A variable in two places, one beneath a name; two variables that may be one; and what differs up to isomorphism alone.
const M: [Described; 4] = [
    (Kind::Val, b"K.k", b"ab*B>"),
    (Kind::Val, b"R.p", b"aaL*I>"),
    (Kind::Val, b"G.d", b"III*>"),
    (Kind::Val, b"G.u", b"I1>"),
];

// Two of one type, with another between them.
const E: [Described; 3] = [
    (Kind::Val, b"E.f", b"IS*B>"),
    (Kind::Val, b"E.g", b"SI*B>"),
    (Kind::Val, b"E.h", b"IS*B>"),
];

#[test]
fn converters_of_hits(rt: HostRuntime) -> Result<(), Fail> {
    let alloc = rt.alloc();
    let cases = [
        (
            Mode::Iso,
            b"aLab>*bL>".as_slice(),
            L.as_slice(),
            b"val L.map : ('a -> 'b) -> 'a list -> 'b list
  to fn (x1 : ('a -> 'b) -> 'a list -> 'b list) => fn (x2 : 'a list * ('a -> 'b)) => x1 (#2 x2) (#1 x2)
  from fn (x1 : 'a list * ('a -> 'b) -> 'b list) => fn (x2 : 'a -> 'b) => fn (x3 : 'a list) => x1 (x3, x2)
1 found
"
                .as_slice(),
        ),
        (
            Mode::Iso,
            b"1",
            &L,
            b"val L.ignore : 'a -> unit
  to fn (x1 : 'a -> unit) => ()
  from fn (x1 : unit) => fn (x2 : 'a) => ()
1 found
",
        ),
        (
            Mode::Iso,
            b"aLa>",
            &V,
            b"val V.drop : (''a -> unit) * ('b list -> ('c -> unit) -> 'b)
  to fn (x1 : (''b -> unit) * ('a list -> ('c -> unit) -> 'a)) => fn (x2 : 'a list) => #2 x1 x2 (fn (x3 : 'c) => ())
  from fn (x1 : 'a list -> 'a) => (fn (x2 : ''b) => (), fn (x2 : 'a list) => fn (x3 : 'c -> unit) => x1 x2)
1 found
",
        ),
        (
            Mode::Iso,
            b"ac1>bL*>",
            &V,
            b"val V.swap : ('a -> ''b -> unit) * ('c -> 'd list)
  to fn (x1 : ('d -> ''e -> unit) * ('a -> 'c list)) => fn (x2 : 'a) => (fn (x3 : 'b) => (), #2 x1 x2)
  from fn (x1 : 'a -> ('b -> unit) * 'c list) => (fn (x2 : 'd) => fn (x3 : ''e) => (), fn (x2 : 'a) => #2 (x1 x2))
1 found
",
        ),
        (
            Mode::Iso,
            b"ISB>>",
            &E,
            b"val E.f : int * string -> bool
  to fn (x1 : int * string -> bool) => fn (x2 : int) => fn (x3 : string) => x1 (x2, x3)
  from fn (x1 : int -> string -> bool) => fn (x2 : int * string) => x1 (#1 x2) (#2 x2)
val E.g : string * int -> bool
  to fn (x1 : string * int -> bool) => fn (x2 : int) => fn (x3 : string) => x1 (x3, x2)
  from fn (x1 : int -> string -> bool) => fn (x2 : string * int) => x1 (#2 x2) (#1 x2)
val E.h : int * string -> bool
  to fn (x1 : int * string -> bool) => fn (x2 : int) => fn (x3 : string) => x1 (x2, x3)
  from fn (x1 : int -> string -> bool) => fn (x2 : int * string) => x1 (#1 x2) (#2 x2)
3 found
",
        ),
        (
            Mode::General,
            b"aa*B>",
            &M,
            b"val K.k : 'a * 'b -> bool
  at 'a * 'a -> bool
  to fn (x1 : 'a * 'a -> bool) => x1
  from fn (x1 : 'a * 'a -> bool) => x1
1 found
",
        ),
        (
            Mode::General,
            b"II*B>",
            &L,
            b"val L.eq : ''a * ''a -> bool
  at int * int -> bool
  to fn (x1 : int * int -> bool) => x1
  from fn (x1 : int * int -> bool) => x1
1 found
",
        ),
        (
            Mode::General,
            b"IB>IB>>",
            &L,
            b"val L.curry : ('a * 'b -> 'c) -> 'a -> 'b -> 'c
  at (int * unit -> bool) -> int -> unit -> bool
  to fn (x1 : (int * unit -> bool) -> int -> unit -> bool) => fn (x2 : int -> bool) => fn (x3 : int) => x1 (fn (x4 : int * unit) => x2 (#1 x4)) x3 ()
  from fn (x1 : (int -> bool) -> int -> bool) => fn (x2 : int * unit -> bool) => fn (x3 : int) => fn (x4 : unit) => x1 (fn (x5 : int) => x2 (x5, ())) x3
1 found
",
        ),
        (
            Mode::General,
            b"SIIS*L3I>",
            &M,
            b"val R.p : 'a * 'a list -> int
  at (int * string) * (int * string) list -> int
  to fn (x1 : (int * string) * (int * string) list -> int) => fn (x2 : string * int * (int * string) list) => x1 ((#2 x2, #1 x2), #3 x2)
  from fn (x1 : string * int * (int * string) list -> int) => fn (x2 : (int * string) * (int * string) list) => x1 (#2 (#1 x2), #1 (#1 x2), #2 x2)
1 found
",
        ),
        (Mode::General, b"II>II>*", &M, b"0 found\n"),
        (Mode::General, b"1", &M, b"0 found\n"),
        (
            Mode::Same,
            b"II*I>",
            &L,
            b"val L.add : int * int -> int
1 found
",
        ),
    ];
    for (mode, query, members, wanted) in cases {
        let text = reported(alloc, mode, query, members, false)?;
        assert!(rt; text.as_slice() == wanted);
    }
    Ok(())
}

/// Adds the word of a pairing, in digits.
#[cycle(letters)]
fn push_word(p: &PairTree, out: &mut Text) -> Result<(), NoMemory> {
    for entry in p.entries.as_slice() {
        out.push(b'0' + (entry.place % 10) as u8)?;
        push_word(&entry.args, out)?;
    }
    Ok(())
}

/// For each hit its member's number and the word of its pairing, if it has one.
fn written(alloc: Global, answer: &Answer) -> Result<Text, NoMemory> {
    let mut text = Text::new(alloc);
    for hit in answer.hits.as_slice() {
        text.push(b'0' + (hit.member % 10) as u8)?;
        match &hit.pairing {
            Some(p) => {
                text.push(b':')?;
                push_word(p.get(), &mut text)?;
            }
            None => {}
        }
        text.push(b'.')?;
    }
    Ok(text)
}

#[test]
fn pairings_of_hits(rt: HostRuntime) -> Result<(), Fail> {
    let alloc = rt.alloc();
    let members: [Described; 4] = [
        (Kind::Val, b"P.a", b"IS>BI>*"),
        (Kind::Val, b"P.b", b"BI>"),
        (Kind::Val, b"P.c", b"BI>IS>*"),
        (Kind::Val, b"P.d", b"IS>BI>*"),
    ];
    let cases = [
        (Mode::Same, b"IS>BI>*".as_slice(), b"0.3.".as_slice()),
        (Mode::Iso, b"IS>BI>*", b"0:0010.2:1000.3:0010."),
        (Mode::Iso, b"BI>", b"1:00."),
        (Mode::Iso, b"II*II*>", b""),
    ];
    for (mode, query, wanted) in cases {
        let query = read(alloc, query)?;
        let library = library(alloc, &members)?;
        let answer = search(alloc, &library, mode, &query)?;
        let text = written(alloc, &answer)?;
        assert!(rt; text.as_slice() == wanted);
    }
    Ok(())
}
