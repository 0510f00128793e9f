// The words that follow a mode.
ghost use Rattle.std.specs.Prelude.{◌≡◌, ◌∷◌, [], map, string_bytes, IsTrue, MatchOption};
ghost use Rattle.query_cli.specs.Words.{are_among, has, is_option, options_of, values_of};
ghost use Rattle.query_cli.specs.Commands.{are_files};
ghost use Rattle.query_cli.specs.Requests.{options_in, values_in};

/// The words before the first `--`, which are options and values, and those after it, which are values.
#[derive(Clone, Copy)]
pub struct Arguments<'a> {
    before: &'a [String],
    after: &'a [String],
}

fn is_option(word: &str) -> bool
    ensures value { result ≡ is_option word.now }
{
    match word.as_bytes() {
        [first, _, ..] => *first == b'-',
        _ => false,
    }
}

fn has(words: &[String], word: &str) -> bool
    ensures value { result ≡ has (map string_bytes words.now) word.now }
{
    for other in words {
        if other.as_str() == word {
            return true;
        }
    }
    false
}

fn is_known(known: &[&str], word: &str) -> bool
    ensures value { result ≡ has (map (λ name. name.now) known.now) word.now }
{
    for name in known {
        if *name == word {
            return true;
        }
    }
    false
}

impl<'a> Arguments<'a> {
    /// The arguments that words are.
    pub fn of(words: &'a [String]) -> Arguments<'a>
        ensures options { options_in result ≡ options_of (map string_bytes words.now) }
        ensures values { values_in result ≡ values_of (map string_bytes words.now) }
    {
        for (i, word) in words.iter().enumerate() {
            if word.as_str() == "--" {
                return Arguments {
                    before: &words[..i],
                    after: &words[i + 1..],
                };
            }
        }
        Arguments {
            before: words,
            after: &[],
        }
    }

    /// Whether an option stands among them.
    pub fn has(self, option: &str) -> bool
        requires { IsTrue (is_option option.now) }
        ensures value { result ≡ has (options_in self.entry) option.now }
    {
        has(self.before, option)
    }

    /// Whether each option is a known one, and none stands twice.
    pub fn are_among(self, known: &[&str]) -> bool
        ensures value { result ≡ are_among (map (λ name. name.now) known.now) (options_in self.entry) }
    {
        for (i, word) in self.before.iter().enumerate() {
            let word = word.as_str();
            if !is_option(word) {
                continue;
            }
            if !is_known(known, word) {
                return false;
            }
            if has(&self.before[i + 1..], word) {
                return false;
            }
        }
        true
    }

    /// The first value, and the arguments after it.
    pub fn split_first(self) -> Option<(&'a str, Arguments<'a>)>
        ensures value { MatchOption result (values_in self.entry ≡ []) (λ first. values_in self.entry ≡ first.0.now ∷ values_in first.1) }
    {
        for (i, word) in self.before.iter().enumerate() {
            if !is_option(word.as_str()) {
                let rest = Arguments {
                    before: &self.before[i + 1..],
                    after: self.after,
                };
                return Some((word.as_str(), rest));
            }
        }
        match self.after {
            [] => None,
            [word, after @ ..] => Some((word.as_str(), Arguments { before: &[], after })),
        }
    }

    /// Whether the values are files: one or more, and exactly one where it is an index.
    pub fn are_files(self, from_index: bool) -> bool
        ensures value { result ≡ are_files from_index (values_in self.entry) }
    {
        match self.split_first() {
            None => false,
            Some((_, others)) => !from_index || others.split_first().is_none(),
        }
    }
}
