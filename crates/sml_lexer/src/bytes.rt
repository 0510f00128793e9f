// Separators, and how far a run of bytes of one sort goes.
ghost use Rattle.std.specs.Prelude.{◌≡◌, ℕ, ◌<◌, ◌≤◌, ◌↔◌, length, IsTrue, slice_index};
ghost use Rattle.sig_base.specs.Identifiers.{IsDigit, IsAlphanumericByte, IsSymbolicByte};
ghost use Rattle.sml_lexer.specs.Tokens.{IsSeparator};

use sig_base::{is_alphanumeric_byte, is_digit, is_symbolic_byte};

pub fn is_separator(b: u8) -> bool
    ensures { IsTrue result ↔ IsSeparator b }
{
    b == b' ' || b == b'\t' || b == b'\n' || b == 12 || b == b'\r'
}

/// Whether a byte stands at a place.
pub fn is_at(bytes: &[u8], at: usize, byte: u8) -> bool
    requires { 0 < byte }
    ensures { IsTrue result ↔ (slice_index bytes.now at ≡ byte) }
{
    at < bytes.len() && bytes[at] == byte
}

/// Where the letters, digits, primes and underbars from a place on end.
pub fn alphanumeric_end(bytes: &[u8], from: usize) -> usize
    requires { from ≤ length bytes.now }
    ensures after { from ≤ result }
    ensures within { result ≤ length bytes.now }
    ensures run { (i : ℕ) → from ≤ i → i < result → IsAlphanumericByte (slice_index bytes.now i) }
    ensures whole { result < length bytes.now → IsAlphanumericByte (slice_index bytes.now result) → ⊥ }
{
    let mut end = from;
    while end < bytes.len() && is_alphanumeric_byte(bytes[end]) {
        end += 1;
    }
    end
}

/// Where the symbols from a place on end.
pub fn symbolic_end(bytes: &[u8], from: usize) -> usize
    requires { from ≤ length bytes.now }
    ensures after { from ≤ result }
    ensures within { result ≤ length bytes.now }
    ensures run { (i : ℕ) → from ≤ i → i < result → IsSymbolicByte (slice_index bytes.now i) }
    ensures whole { result < length bytes.now → IsSymbolicByte (slice_index bytes.now result) → ⊥ }
{
    let mut end = from;
    while end < bytes.len() && is_symbolic_byte(bytes[end]) {
        end += 1;
    }
    end
}

/// Where the digits from a place on end.
pub fn digits_end(bytes: &[u8], from: usize) -> usize
    requires { from ≤ length bytes.now }
    ensures after { from ≤ result }
    ensures within { result ≤ length bytes.now }
    ensures run { (i : ℕ) → from ≤ i → i < result → IsDigit (slice_index bytes.now i) }
    ensures whole { result < length bytes.now → IsDigit (slice_index bytes.now result) → ⊥ }
{
    let mut end = from;
    while end < bytes.len() && is_digit(bytes[end]) {
        end += 1;
    }
    end
}
