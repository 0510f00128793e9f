// What searches find over files in memory, as tables.
use crate::tests::{L, ends, sound};
use std::test::Fail;

// A mode, a query, a file, and the names of the hits.
#[test]
fn finds_values(rt: HostRuntime) -> Result<(), Fail> {
    let g =
        "signature G = sig val d : int -> int * int val u : int -> unit val w : unit -> bool end";
    let none = "0 found\n";
    let rows = [
        ("same", "int -> int -> int", L, none),
        ("general", "real * real -> bool", L, none),
        ("general", "(int -> int) * (int -> int)", g, none),
        ("general", "unit", g, none),
        (
            "same",
            "'a -> 'a",
            "signature M = sig val f : 'x -> 'x datatype t = A of int | B type u = int val g : ''x -> ''x exception E val h : 'y -> 'y end",
            "val M.f : 'a -> 'a\nval M.h : 'a -> 'a\n2 found\n",
        ),
        (
            "same",
            "{b : {}, a : {2 : int, 1 : 'x}}",
            "signature R = sig val r : {a : 'a * int, b : unit} end",
            "val R.r : {a : 'a * int, b : unit}\n1 found\n",
        ),
        (
            "iso",
            "(int * int -> int) * (int * int -> int)",
            L,
            "val L.divMod : int * int -> int * int\n1 found\n",
        ),
        ("iso", "unit", L, "val L.ignore : 'a -> unit\n1 found\n"),
        ("iso", "bool", g, "val G.w : unit -> bool\n1 found\n"),
    ];
    for (mode, query, text, out) in rows {
        let words = [mode, query, "F", "--names"];
        let status = if out == none { 1 } else { 0 };
        assert!(rt;
            ends(rt.alloc(), &words, sound(text), status, out, "")?,
            "{mode} {query} in {text}"
        );
    }
    Ok(())
}

// A mode, a query, a file, and the hits with instances and converters.
#[test]
fn prints_converters(rt: HostRuntime) -> Result<(), Fail> {
    let r = "signature R = sig val p : 'a * 'a list -> int end";
    let rows = [
        (
            "iso",
            "'x list * ('x -> 'y) -> 'y list",
            L,
            "val L.map : ('a -> 'b) -> 'a list -> 'b list
  to fn (x1 : ('a -> 'b) -> 'a list -> 'b list) => fn (x2 : 'a list * ('a -> 'b)) => x1 (#2 x2) (#1 x2)
  from fn (x1 : 'a list * ('a -> 'b) -> 'b list) => fn (x2 : 'a -> 'b) => fn (x3 : 'a list) => x1 (x3, x2)
1 found
",
        ),
        (
            "iso",
            "unit",
            L,
            "val L.ignore : 'a -> unit
  to fn (x1 : 'a -> unit) => ()
  from fn (x1 : unit) => fn (x2 : 'a) => ()
1 found
",
        ),
        (
            "general",
            "(int -> bool) -> int -> bool",
            L,
            "val L.curry : ('a * 'b -> 'c) -> 'a -> 'b -> 'c
  at (int * unit -> bool) -> int -> unit -> bool
  to fn (x1 : (int * unit -> bool) -> int -> unit -> bool) => fn (x2 : int -> bool) => fn (x3 : int) => x1 (fn (x4 : int * unit) => x2 (#1 x4)) x3 ()
  from fn (x1 : (int -> bool) -> int -> bool) => fn (x2 : int * unit -> bool) => fn (x3 : int) => fn (x4 : unit) => x1 (fn (x5 : int) => x2 (x5, ())) x3
1 found
",
        ),
        (
            "general",
            "string * int * (int * string) list -> int",
            r,
            "val R.p : 'a * 'a list -> int
  at (int * string) * (int * string) list -> int
  to fn (x1 : (int * string) * (int * string) list -> int) => fn (x2 : string * int * (int * string) list) => x1 ((#2 x2, #1 x2), #3 x2)
  from fn (x1 : string * int * (int * string) list -> int) => fn (x2 : (int * string) * (int * string) list) => x1 (#2 (#1 x2), #1 (#1 x2), #2 x2)
1 found
",
        ),
    ];
    for (mode, query, text, out) in rows {
        let words = [mode, query, "F"];
        assert!(rt;
            ends(rt.alloc(), &words, sound(text), 0, out, "")?,
            "{mode} {query} in {text}"
        );
    }
    Ok(())
}
