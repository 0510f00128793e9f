// The sorts of bytes of which words are made.
ghost use Rattle.std.specs.Prelude.{◌≡◌};
ghost use Rattle.sig_base.specs.Identifiers.{is_alphanumeric_byte, is_digit, is_letter, is_symbolic_byte};

const SYMBOLS: &[u8] = b"!%&$#+-/:<=>?@\\~`^|*";

/// Whether a byte is a letter of ASCII.
pub fn is_letter(b: u8) -> bool
    ensures value { result ≡ is_letter b }
{
    (b'A' <= b && b <= b'Z') || (b'a' <= b && b <= b'z')
}

/// Whether a byte is a digit.
pub fn is_digit(b: u8) -> bool
    ensures value { result ≡ is_digit b }
{
    b'0' <= b && b <= b'9'
}

/// Whether a byte may stand in an alphanumeric word: a letter, a digit, a prime or an underbar.
pub fn is_alphanumeric_byte(b: u8) -> bool
    ensures value { result ≡ is_alphanumeric_byte b }
{
    is_letter(b) || is_digit(b) || b == b'\'' || b == b'_'
}

/// Whether a byte is one of the symbols of which symbolic words are made.
#[tactic(auto, unfolding(crate::specs::Identifiers::is_symbolic_byte))]
pub fn is_symbolic_byte(b: u8) -> bool
    ensures value { result ≡ is_symbolic_byte b }
{
    SYMBOLS.contains(&b)
}
