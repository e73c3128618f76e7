//! The words of a command line, before they are taken.

ghost use Rattle.std.specs.Prelude.{◌≡◌, ◌==◌, ◌<◌, ◌+◌, ◌++◌, length, not, Some, None, IfSome, IfNone, slice_index_or};
ghost use Rattle.command_words.specs.Lines.{texts, is_operand, without_json};

/// An operand is not empty and does not begin with `-`.
pub fn is_operand(word: &str) -> bool
    ensures { result ≡ is_operand word.now }
{
    match word.as_bytes() {
        [] => false,
        [first, ..] => *first != b'-',
    }
}

/// The words before and behind the first `--json`.
pub fn around_json<'a>(words: &'a [String]) -> Option<(&'a [String], &'a [String])>
    ensures found { IfSome result (λ parts.
        without_json (texts words.now) ≡ Some (texts (parts.0.now ++ parts.1.now))) }
    ensures none { IfNone result (without_json (texts words.now) ≡ None) }
{
    for place in 0..words.len() {
        if words[place].as_str() == "--json" {
            return Some((&words[..place], &words[place + 1..]));
        }
    }
    None
}

/// One of the words of two lists, those of the first one first.
pub fn word_of<'a>(before: &'a [String], after: &'a [String], number: usize) -> &'a String
    requires { number < length before.now + length after.now }
    ensures { result.now ≡ slice_index_or (before.now ++ after.now) number result.now }
{
    if number < before.len() {
        &before[number]
    } else {
        &after[number - before.len()]
    }
}
