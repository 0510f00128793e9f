// What is said of files and queries that are refused.
ghost use Rattle.std.specs.Prelude.{◌≡◌};
ghost use Rattle.isosearch.specs.Lines.{fault_text as the_fault_text, query_text as the_query_text, why_text as the_why_text};

use lib_load::Fault;
use query_parser::QueryWhy;
use sig_elab::Why;

/// What is said of a fault of a file.
pub fn fault_text(fault: Fault) -> &'static str
    ensures { result.now ≡ the_fault_text fault }
{
    match fault {
        Fault::BadByte => "unexpected byte",
        Fault::OpenComment => "comment is not closed",
        Fault::LongName => "name is longer than 255 bytes",
        Fault::Syntax => "syntax error",
        Fault::TooDeep => "nesting is too deep",
        Fault::Elab(why) => why_text(why),
    }
}

fn why_text(why: Why) -> &'static str
    ensures { result.now ≡ the_why_text why }
{
    match why {
        Why::Unbound => "unbound identifier",
        Why::UnboundSignature => "unbound signature",
        Why::WrongArity => "wrong number of type arguments",
        Why::Duplicate => "described twice",
        Why::FreeVariable => "type variable is not a parameter",
        Why::RepeatedParameter => "type parameter repeated",
        Why::NotFlexible => "type is not flexible",
        Why::ArityClash => "arities differ",
        Why::NeedsEquality => "type does not admit equality",
        Why::BadRealization => "datatype needs a type name",
        Why::LateUnit => "identifier was used for an external type",
        Why::TypeTooLarge => "type has more than 2000 nodes",
        Why::TypeTooHigh => "type is higher than 200",
        Why::NormalTooLarge => "normal form has more than 8000 nodes",
        Why::TooManyMembers => "more than 100000 members",
        Why::LibraryTooLarge => "library is too large",
    }
}

/// What is said of a query that is refused.
pub fn query_text(why: QueryWhy) -> &'static str
    ensures { result.now ≡ the_query_text why }
{
    match why {
        QueryWhy::BadByte => fault_text(Fault::BadByte),
        QueryWhy::OpenComment => fault_text(Fault::OpenComment),
        QueryWhy::LongName => fault_text(Fault::LongName),
        QueryWhy::Syntax => fault_text(Fault::Syntax),
        QueryWhy::TooDeep => fault_text(Fault::TooDeep),
        QueryWhy::Unbound => why_text(Why::Unbound),
        QueryWhy::WrongArity => why_text(Why::WrongArity),
        QueryWhy::Duplicate => why_text(Why::Duplicate),
        QueryWhy::TooLarge => "query is too large",
        QueryWhy::NormalTooLarge => why_text(Why::NormalTooLarge),
    }
}
