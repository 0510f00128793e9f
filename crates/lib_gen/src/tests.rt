// Generated texts, and summaries.
use crate::{gen_summary, generate};
use std::test::Fail;

#[test]
fn texts_end_with_their_last_value(rt: HostRuntime) -> Result<(), Fail> {
    let alloc = rt.alloc();
    let rows: [(u32, &[u8]); 4] = [
        (
            1,
            b"signature G = sig\n  val v0 : int -> 'a -> int -> int\nend\n",
        ),
        (140, b"\n  val v139 : 'a * word * bool -> int\nend\n"),
        (264, b"\n  val v263 : bool * 'a -> char -> int\nend\n"),
        (432, b"\n  val v431 : string * string -> 'a -> bool\nend\n"),
    ];
    for (n, end) in rows {
        let text = generate(alloc, n)?;
        assert!(rt; text.as_slice().ends_with(end));
    }
    Ok(())
}

#[test]
fn summaries_tell_all_hits(rt: HostRuntime) -> Result<(), Fail> {
    let alloc = rt.alloc();
    let rows: [(u32, &[u8]); 5] = [
        (1, b"members 1, queries 0, iso 0, general 0\n"),
        (14, b"members 14, queries 1, iso 1, general 1\n"),
        (264, b"members 264, queries 3, iso 13, general 13\n"),
        (500, b"members 500, queries 5, iso 40, general 40\n"),
        (5000, b"members 5000, queries 50, iso 4000, general 4000\n"),
    ];
    for (n, line) in rows {
        let summary = gen_summary(alloc, n)?;
        assert_eq!(rt; summary.as_slice(), line);
    }
    Ok(())
}
