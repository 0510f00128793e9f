// What holds of summaries.
ghost use Rattle.std.specs.Prelude.{◌≡◌, ℕ, List};
ghost use Rattle.lib_gen.specs.Summary.{IsSummary};

use lib_load::files_have_one_outcome;
use search_core::queries_have_one_answer;

/// There is one summary for a number.
pub fn summaries_are_one()
    ensures law { (n : ℕ) (a b : List ℕ) → IsSummary n a → IsSummary n b → a ≡ b }
{
    files_have_one_outcome();
    queries_have_one_answer();
}
