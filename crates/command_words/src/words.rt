ghost use Rattle.std.specs.Prelude.{◌≡◌, option_copied};
ghost use Rattle.spec_words.specs.Words.{texts, pairs, value_of, all_differ};

/// The word behind an option, where the option stands among the pairs.
pub fn value_of<'a>(words: &'a [String], option: &str) -> Option<&'a str>
    ensures { option_copied result ≡ value_of option.now (pairs (texts words.now)) }
{
    let mut rest = words;
    while let [name, value, more @ ..] = rest {
        if name.as_str() == option {
            return Some(value.as_str());
        }
        rest = more;
    }
    None
}

/// Whether no option stands twice among the pairs.
pub fn all_differ(words: &[String]) -> bool
    ensures { result ≡ all_differ (pairs (texts words.now)) }
{
    let mut rest = words;
    while let [name, _, more @ ..] = rest {
        if value_of(more, name.as_str()).is_some() {
            return false;
        }
        rest = more;
    }
    true
}
