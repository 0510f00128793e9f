// Numbers of members.
ghost use Rattle.std.specs.Prelude.{◌≡◌, IsTrue, MatchOption, IsFalse};
ghost use Rattle.std.specs.Str.Parse.{digits_value};
ghost use Rattle.query_cli.specs.Commands.{is_count};

use sig_base::is_numeral;

const MAX_COUNT: u32 = 20_000;

/// The number that a word writes, from 1 to 20,000.
pub fn count_of(word: &str) -> Option<u32>
    ensures value { MatchOption result (IsFalse (is_count word.now)) (λ n. IsTrue (is_count word.now) × (n ≡ digits_value 10 word.now)) }
{
    if !is_numeral(word.as_bytes()) {
        return None;
    }
    match word.parse::<u32>() {
        Ok(n) if n <= MAX_COUNT => Some(n),
        _ => None,
    }
}
