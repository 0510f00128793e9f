// What a list of words asks for, while no memory is taken.
ghost use Rattle.std.specs.Prelude.{◌≡◌, map, string_bytes, MatchOption, None, Some};
ghost use Rattle.query_cli.specs.Commands.{command_in, command_of, find_of as the_find, gen_of as the_gen, index_of as the_index, listing_of as the_listing, mode_of as the_mode};
ghost use Rattle.query_cli.specs.Requests.{asked, options_in, values_in};

use crate::arguments::Arguments;
use crate::command::FindMode;
use crate::count::count_of;

const NAMES: &str = "--names";

const FROM_INDEX: &str = "--from-index";

/// A command whose words are borrowed. Files are the values among arguments.
#[derive(Clone, Copy)]
pub enum Request<'a> {
    Listing {
        files: Arguments<'a>,
        from_index: bool,
    },
    Find {
        mode: FindMode,
        query: &'a str,
        files: Arguments<'a>,
        names: bool,
        from_index: bool,
    },
    Index {
        out: &'a str,
        files: Arguments<'a>,
    },
    Gen {
        n: u32,
    },
}

fn listing_of(arguments: Arguments<'_>) -> Option<Request<'_>>
    ensures value { MatchOption result (the_listing (options_in arguments.entry) (values_in arguments.entry) ≡ None) (λ request. the_listing (options_in arguments.entry) (values_in arguments.entry) ≡ Some (asked request)) }
{
    let from_index = arguments.has(FROM_INDEX);
    if arguments.are_among(&[FROM_INDEX]) && arguments.are_files(from_index) {
        Some(Request::Listing {
            files: arguments,
            from_index,
        })
    } else {
        None
    }
}

fn find_of(mode: FindMode, arguments: Arguments<'_>) -> Option<Request<'_>>
    ensures value { MatchOption result (the_find mode (options_in arguments.entry) (values_in arguments.entry) ≡ None) (λ request. the_find mode (options_in arguments.entry) (values_in arguments.entry) ≡ Some (asked request)) }
{
    let (query, files) = arguments.split_first()?;
    let from_index = arguments.has(FROM_INDEX);
    if arguments.are_among(&[NAMES, FROM_INDEX]) && files.are_files(from_index) {
        Some(Request::Find {
            mode,
            query,
            files,
            names: arguments.has(NAMES),
            from_index,
        })
    } else {
        None
    }
}

fn index_of(arguments: Arguments<'_>) -> Option<Request<'_>>
    ensures value { MatchOption result (the_index (options_in arguments.entry) (values_in arguments.entry) ≡ None) (λ request. the_index (options_in arguments.entry) (values_in arguments.entry) ≡ Some (asked request)) }
{
    let (out, files) = arguments.split_first()?;
    if arguments.are_among(&[]) && files.are_files(false) {
        Some(Request::Index { out, files })
    } else {
        None
    }
}

fn gen_of(arguments: Arguments<'_>) -> Option<Request<'_>>
    ensures value { MatchOption result (the_gen (options_in arguments.entry) (values_in arguments.entry) ≡ None) (λ request. the_gen (options_in arguments.entry) (values_in arguments.entry) ≡ Some (asked request)) }
{
    let (number, others) = arguments.split_first()?;
    if others.split_first().is_some() || !arguments.are_among(&[]) {
        return None;
    }
    let n = count_of(number)?;
    Some(Request::Gen { n })
}

fn mode_of(word: &str) -> Option<FindMode>
    ensures value { result ≡ the_mode word.now }
{
    match word {
        "same" => Some(FindMode::Same),
        "iso" => Some(FindMode::Iso),
        "general" => Some(FindMode::General),
        _ => None,
    }
}

fn request_in<'a>(word: &str, arguments: Arguments<'a>) -> Option<Request<'a>>
    ensures value { MatchOption result (command_in word.now (options_in arguments.entry) (values_in arguments.entry) ≡ None) (λ request. command_in word.now (options_in arguments.entry) (values_in arguments.entry) ≡ Some (asked request)) }
{
    match word {
        "list" => listing_of(arguments),
        "index" => index_of(arguments),
        "gen" => gen_of(arguments),
        _ => find_of(mode_of(word)?, arguments),
    }
}

/// What words ask for; `None` exactly where they are no command.
pub fn request_of(words: &[String]) -> Option<Request<'_>>
    ensures value { MatchOption result (command_of (map string_bytes words.now) ≡ None) (λ request. command_of (map string_bytes words.now) ≡ Some (asked request)) }
{
    match words {
        [] => None,
        [word, rest @ ..] => request_in(word.as_str(), Arguments::of(rest)),
    }
}
