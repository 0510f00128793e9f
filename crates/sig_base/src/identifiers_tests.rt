// What the clauses cannot show: that the definitions are the Definition's.
use crate::{is_alphanumeric, is_long_identifier, is_numeral, is_symbolic};

#[test]
fn tells_identifiers(rt: HostRuntime) {
    for text in [b"a".as_slice(), b"list", b"x'", b"A_1", b"exn"] {
        assert!(rt; is_alphanumeric(text));
        assert!(rt; !is_symbolic(text));
    }
    for text in [b"*".as_slice(), b"::", b"==", b"#>"] {
        assert!(rt; is_symbolic(text));
        assert!(rt; !is_alphanumeric(text));
    }
    for text in [
        b"".as_slice(),
        b"sig",
        b"=",
        b"'a",
        b"_",
        b"1",
        b"a.b",
        b"a+",
    ] {
        assert!(rt; !is_alphanumeric(text));
        assert!(rt; !is_symbolic(text));
    }
}

#[test]
fn tells_numerals(rt: HostRuntime) {
    for text in [b"1".as_slice(), b"90"] {
        assert!(rt; is_numeral(text));
    }
    for text in [b"".as_slice(), b"0", b"01", b"1a"] {
        assert!(rt; !is_numeral(text));
    }
}

#[test]
fn tells_long_identifiers(rt: HostRuntime) {
    for text in [b"A.b".as_slice(), b"A.B.c'", b"A.+", b"A.*"] {
        assert!(rt; is_long_identifier(text));
    }
    for text in [
        b"".as_slice(),
        b"a",
        b".",
        b"A.",
        b".a",
        b"A..b",
        b"A.sig",
        b"sig.a",
        b"A.=",
        b"+.a",
        b"A.1",
    ] {
        assert!(rt; !is_long_identifier(text));
    }
}
