// What holds of queries.
ghost use Rattle.std.specs.Prelude.{◌≡◌, ℕ, List, Result};
ghost use Rattle.elab_types.specs.Stages.{Flaw};
ghost use Rattle.query_parser.specs.Queries.{Asks};
ghost use Rattle.query_parser.specs.declared.refusal.QueryWhy.{QueryWhy};
ghost use Rattle.type_core.specs.declared.library.Library.{Library};
ghost use Rattle.type_core.specs.declared.ty.Scheme.{Scheme};

use sml_lexer::{no_refusal, one_list, one_refusal};
use ty_parser::one_tree;

/// One thing comes of a query over a library.
pub fn queries_have_one_answer()
    ensures law { (library : Library) (query : List ℕ) (a b : Result Scheme (Flaw QueryWhy)) → Asks library query a → Asks library query b → a ≡ b }
{
    one_list();
    no_refusal();
    one_refusal();
    one_tree();
}
