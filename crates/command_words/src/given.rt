//! The words that give options: whether they are well formed, and the text that they give to one option.

ghost use Rattle.std.specs.Prelude.{◌≡◌, ◌≤◌, true, nat_le, drop, map, length, find, count_by, option_map, string_bytes, List, IsTrue, IfSome};
ghost use Rattle.std.specs.List.{list_all, list_any};
ghost use Rattle.std.specs.Char.{is_ascii_digit};
ghost use Rattle.command_words.specs.Options.{Text, begins_with, start_of, are_digits, are_options};

/// Whether the word begins so.
fn begins_with(word: &str, start: &str) -> bool
    ensures value { result ≡ begins_with start.now word.now }
    ensures long { IsTrue result → length start.now ≤ length word.now }
{
    word.as_bytes().starts_with(start.as_bytes())
}

/// Whether the word begins in one of these ways.
fn is_known(starts: &[&str], word: &str) -> bool
    ensures { result ≡ list_any (λ s. begins_with s.now word.now) starts.now }
{
    starts.iter().any(|start| begins_with(word, start))
}

/// How many words begin so.
pub fn times(words: &[String], start: &str) -> usize
    ensures { result ≡ count_by (begins_with start.now) (map string_bytes words.now) }
{
    words
        .iter()
        .filter(|word| begins_with(word.as_str(), start))
        .count()
}

/// Whether each word begins in one of these ways.
fn are_known(starts: &[&str], words: &[String]) -> bool
    ensures { result ≡ list_all (λ w. list_any (λ s. begins_with s.now (string_bytes w)) starts.now) words.now }
{
    words.iter().all(|word| is_known(starts, word.as_str()))
}

/// Whether no two words begin in the same of these ways.
fn are_single(starts: &[&str], words: &[String]) -> bool
    ensures { result
        ≡ list_all (λ s. nat_le (count_by (begins_with s.now) (map string_bytes words.now)) 1) starts.now }
{
    starts.iter().all(|start| times(words, start) <= 1)
}

/// Whether each word gives an option of these names, and no two words the same one. Each name is told by how the words begin
/// that give it.
pub fn are_options(starts: &[&str], words: &[String]) -> bool
    ensures { (names : List Text) → map (λ s. s.now) starts.now ≡ map start_of names →
        result ≡ are_options names (map string_bytes words.now) }
{
    are_known(starts, words) && are_single(starts, words)
}

/// The first word that begins so.
fn find_word<'a>(words: &'a [String], start: &str) -> Option<&'a str>
    ensures found { option_map (λ w. w.now) result ≡ find (begins_with start.now) (map string_bytes words.now) }
    ensures begun { IfSome result (λ w. begins_with start.now w.now ≡ true) }
    ensures long { IfSome result (λ w. length start.now ≤ length w.now) }
{
    for word in words {
        let text = word.as_str();
        if begins_with(text, start) {
            return Some(text);
        }
    }
    None
}

/// What the words give to the option that begins so.
pub fn text_of<'a>(words: &'a [String], start: &str) -> Option<&'a str>
    ensures { option_map (λ t. t.now) result
        ≡ option_map (drop (length start.now)) (find (begins_with start.now) (map string_bytes words.now)) }
{
    let word = find_word(words, start)?;
    word.strip_prefix(start)
}

/// Whether all bytes are decimal digits.
fn all_digits(text: &[u8]) -> bool
    ensures { result ≡ list_all is_ascii_digit text.now }
{
    text.iter().all(|byte| byte.is_ascii_digit())
}

/// Whether the text is one to thirteen decimal digits.
pub fn are_digits(text: &[u8]) -> bool
    ensures { result ≡ are_digits text.now }
{
    let len = text.len();
    if len < 1 || 13 < len {
        return false;
    }
    all_digits(text)
}
