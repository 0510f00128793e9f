// Worked examples.
use crate::{LexRefusal, Token, TokenKind, Word, lex, position};
use sig_base::{List, NoMemory, Span};
use std::alloc::Global;
use std::test::Fail;

fn token(kind: TokenKind, start: u32, end: u32) -> Token {
    let span = Span { start, end };
    Token { kind, span }
}

fn gives(alloc: Global, text: &[u8], tokens: &[Token]) -> bool {
    if text.len() > 4194304 {
        return false;
    }
    match lex(alloc, text) {
        Ok(found) => found.as_slice() == tokens,
        Err(_) => false,
    }
}

fn refuses(alloc: Global, text: &[u8], refusal: LexRefusal) -> bool {
    if text.len() > 4194304 {
        return false;
    }
    match lex(alloc, text) {
        Ok(_) => false,
        Err(found) => found == refusal,
    }
}

#[test]
fn reads_tokens(rt: HostRuntime) {
    let phrase = [
        token(TokenKind::Reserved(Word::KwVal), 0, 3),
        token(TokenKind::Alpha, 4, 6),
        token(TokenKind::Reserved(Word::KwColon), 7, 8),
        token(TokenKind::TyVar, 9, 14),
        token(TokenKind::Sym, 15, 16),
        token(TokenKind::Alpha, 17, 19),
        token(TokenKind::Reserved(Word::KwArrow), 19, 21),
        token(TokenKind::Alpha, 21, 24),
        token(TokenKind::Reserved(Word::KwEquals), 24, 25),
        token(TokenKind::Reserved(Word::KwLParen), 25, 26),
        token(TokenKind::Reserved(Word::KwRParen), 29, 30),
    ];
    let dots = [
        token(TokenKind::Alpha, 0, 1),
        token(TokenKind::Reserved(Word::KwDots), 1, 4),
    ];
    let close = [
        token(TokenKind::Sym, 0, 1),
        token(TokenKind::Reserved(Word::KwRParen), 1, 2),
    ];
    let texts = [
        (
            b"val\tf' : ''a_1 * t2->exn=(\r\n\x0c)".as_slice(),
            phrase.as_slice(),
        ),
        (b"A...", &dots),
        (b"*)", &close),
        (b"A.b.+->", &[token(TokenKind::Long, 0, 7)]),
        (b"A.*", &[token(TokenKind::Long, 0, 3)]),
        (b"(*)*)", &[]),
        (b"(*(*)*)*)", &[]),
        (b"(*\0\xff(**)*)x", &[token(TokenKind::Alpha, 10, 11)]),
    ];
    for (text, tokens) in texts {
        assert!(rt; gives(rt.alloc(), text, tokens));
    }
}

#[test]
fn refuses_texts(rt: HostRuntime) {
    let texts = [
        (b"B.sig".as_slice(), LexRefusal::BadByte(1)),
        (b"B.=", LexRefusal::BadByte(1)),
        (b"B.->", LexRefusal::BadByte(1)),
        (b"B.C.end", LexRefusal::BadByte(3)),
        (b"sig.x", LexRefusal::BadByte(3)),
        (b"A.1", LexRefusal::BadByte(1)),
        (b"..", LexRefusal::BadByte(0)),
        (b"....", LexRefusal::BadByte(3)),
        (b"a 0", LexRefusal::BadByte(2)),
        (b"'a\x0b", LexRefusal::BadByte(2)),
        (b"A.(*", LexRefusal::BadByte(1)),
        (b"(*)", LexRefusal::OpenComment(0)),
        (b"(*(*)*)", LexRefusal::OpenComment(0)),
        (b"(**) (* a (* b *)", LexRefusal::OpenComment(5)),
        (b"(*\xff", LexRefusal::OpenComment(0)),
    ];
    for (text, refusal) in texts {
        assert!(rt; refuses(rt.alloc(), text, refusal));
    }
}

/// A text made of runs, each of one byte.
fn filled(alloc: Global, runs: &[(u8, u32)]) -> Result<List<u8>, NoMemory> {
    let mut text = List::new(alloc);
    for &(byte, count) in runs {
        for _ in 0..count {
            text.push(byte)?;
        }
    }
    Ok(text)
}

#[test]
fn counts_the_bytes_of_parts(rt: HostRuntime) -> Result<(), Fail> {
    let short = [
        (TokenKind::Alpha, 255, [(b'a', 255), (b'.', 0), (b'b', 0)]),
        (TokenKind::TyVar, 255, [(b'\'', 1), (b'a', 254), (b'b', 0)]),
        (TokenKind::Sym, 255, [(b'+', 255), (b'.', 0), (b'b', 0)]),
        (TokenKind::Num, 255, [(b'1', 255), (b'.', 0), (b'b', 0)]),
        (TokenKind::Long, 511, [(b'a', 255), (b'.', 1), (b'b', 255)]),
        (TokenKind::Long, 511, [(b'a', 255), (b'.', 1), (b'+', 255)]),
    ];
    for (kind, end, runs) in short {
        let text = filled(rt.alloc(), &runs)?;
        assert!(rt; gives(rt.alloc(), text.as_slice(), &[token(kind, 0, end)]));
    }
    let long = [
        [(b'a', 256), (b'.', 0), (b'b', 0)],
        [(b'\'', 1), (b'a', 255), (b'b', 0)],
        [(b'+', 256), (b'.', 0), (b'b', 0)],
        [(b'1', 256), (b'.', 0), (b'b', 0)],
        [(b'a', 256), (b'.', 1), (b'b', 1)],
        [(b'a', 1), (b'.', 1), (b'b', 256)],
        [(b'a', 1), (b'.', 1), (b'+', 256)],
    ];
    for runs in long {
        let text = filled(rt.alloc(), &runs)?;
        assert!(rt; refuses(rt.alloc(), text.as_slice(), LexRefusal::LongName(0)));
    }
    Ok(())
}

/// What two tokens are without a separator between them.
#[derive(Clone, Copy)]
enum Joined {
    Two,
    One(TokenKind),
    BadByte(u32),
}

fn text_of(alloc: Global, pieces: &[&[u8]]) -> Result<List<u8>, NoMemory> {
    let mut text = List::new(alloc);
    for &piece in pieces {
        for &byte in piece {
            text.push(byte)?;
        }
    }
    Ok(text)
}

fn meets(alloc: Global, text: &[u8], first: Token, second: Token, joined: Joined) -> bool {
    match joined {
        Joined::Two => gives(alloc, text, &[first, second]),
        Joined::One(kind) => gives(alloc, text, &[token(kind, 0, second.span.end)]),
        Joined::BadByte(at) => refuses(alloc, text, LexRefusal::BadByte(at)),
    }
}

#[test]
fn joins_tokens(rt: HostRuntime) -> Result<(), Fail> {
    let two = Joined::Two;
    let alpha = Joined::One(TokenKind::Alpha);
    let variable = Joined::One(TokenKind::TyVar);
    let symbols = Joined::One(TokenKind::Sym);
    let long = Joined::One(TokenKind::Long);
    let numeral = Joined::One(TokenKind::Num);
    let bad = Joined::BadByte(3);
    let kinds = [
        (b"val".as_slice(), 3u8, TokenKind::Reserved(Word::KwVal)),
        (b"x", 1, TokenKind::Alpha),
        (b"'a", 2, TokenKind::TyVar),
        (b"+", 1, TokenKind::Sym),
        (b"A.b", 3, TokenKind::Long),
        (b"1", 1, TokenKind::Num),
        (b"(", 1, TokenKind::Reserved(Word::KwLParen)),
    ];
    let table = [
        [alpha, alpha, alpha, two, long, alpha, two],
        [alpha, alpha, alpha, two, long, alpha, two],
        [variable, variable, variable, two, bad, variable, two],
        [two, two, two, symbols, two, two, two],
        [long, long, long, two, long, long, two],
        [two, two, two, two, two, numeral, two],
        [two, two, two, two, two, two, two],
    ];
    for ((left, left_length, left_kind), row) in kinds.into_iter().zip(table) {
        for ((right, right_length, right_kind), expected) in kinds.into_iter().zip(row) {
            let middle = left_length as u32;
            let length = right_length as u32;
            let first = token(left_kind, 0, middle);
            let second = token(right_kind, middle, middle + length);
            let text = text_of(rt.alloc(), &[left, right])?;
            assert!(rt; meets(rt.alloc(), text.as_slice(), first, second, expected));
            let later = token(right_kind, middle + 1, middle + 1 + length);
            for separator in [b" ", b"\t", b"\n", b"\x0c", b"\r"] {
                let text = text_of(rt.alloc(), &[left, separator, right])?;
                assert!(rt; gives(rt.alloc(), text.as_slice(), &[first, later]));
            }
        }
    }
    Ok(())
}

#[test]
fn counts_lines_and_columns(rt: HostRuntime) {
    let text = b"ab\n\ncd";
    for (at, line, col) in [(0, 1, 1), (2, 1, 3), (3, 2, 1), (4, 3, 1), (6, 3, 3)] {
        assert!(rt; at <= 6);
        let place = position(text, at);
        assert_eq!(rt; place.line, line);
        assert_eq!(rt; place.col, col);
    }
}
