// Where comments end.
ghost use Rattle.std.specs.Prelude.{◌<◌, ◌↔◌, length, IsTrue, MatchOption};
ghost use Rattle.sml_lexer.specs.Comments.{OpensAt, ClosesAt, IsCommentAt, IsNeverClosed};

use crate::bytes::is_at;

pub fn is_opening(bytes: &[u8], at: usize) -> bool
    requires { at < length bytes.now }
    ensures { IsTrue result ↔ OpensAt bytes.now at }
{
    is_at(bytes, at, b'(') && is_at(bytes, at + 1, b'*')
}

fn is_closing(bytes: &[u8], at: usize) -> bool
    requires { at < length bytes.now }
    ensures { IsTrue result ↔ ClosesAt bytes.now at }
{
    is_at(bytes, at, b'*') && is_at(bytes, at + 1, b')')
}

/// Where the comment that begins at a place ends; `None` exactly where it isn't closed.
pub fn comment_end(bytes: &[u8], start: usize) -> Option<usize>
    requires { OpensAt bytes.now start }
    ensures { MatchOption result (IsNeverClosed bytes.now start) (IsCommentAt bytes.now start) }
{
    let mut around: usize = 0; // the comments that hold the innermost one
    let mut at = start + 2;
    'bytes: while at < bytes.len() {
        if is_opening(bytes, at) {
            around += 1;
            at += 2;
            continue;
        }
        if !is_closing(bytes, at) {
            at += 1;
            continue;
        }
        at += 2;
        if around == 0 {
            return Some(at);
        }
        around -= 1;
    }
    None
}
