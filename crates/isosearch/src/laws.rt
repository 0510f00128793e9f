// Laws of what is due.
ghost use Rattle.std.specs.Prelude.{◌≡◌, List};
ghost use Rattle.query_cli.specs.declared.command.Command.{Command};
ghost use Rattle.lib_load.specs.Given.{Given};
ghost use Rattle.isosearch.specs.Indexed.{ChangesNoByte};
ghost use Rattle.isosearch.specs.Outcome.{Due, Outcome};

use lib_gen::summaries_are_one;
use lib_load::{files_have_one_outcome, indexes_have_one_outcome, libraries_of_files_are_valid};

/// Where this was read of the files, at most one outcome is due.
pub fn one_outcome()
    ensures law { (command : Command) (givens : List Given) (a b : Outcome) → Due command givens a → Due command givens b → a ≡ b }
{
    files_have_one_outcome();
    indexes_have_one_outcome();
    query_parser::queries_have_one_answer();
    search_core::queries_have_one_answer();
    summaries_are_one();
}

/// An index file changes no byte of what is due.
pub fn indexes_change_no_byte()
    ensures law { (command : Command) (givens : List Given) (outcome : Outcome) → Due command givens outcome → ChangesNoByte command givens outcome }
{
    one_outcome();
    indexes_have_one_outcome();
    libraries_of_files_are_valid();
}
