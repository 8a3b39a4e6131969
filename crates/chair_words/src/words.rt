//! The words of a line, one after another.

ghost use Rattle.std.specs.Prelude.{◌≡◌, ◌≤◌, ◌<◌, true, [], ◌∷◌, length, slice_range, IsTrue, IfSome, IfNone};
ghost use Rattle.chair_words.specs.Line.{longest_line};
ghost use Rattle.chair_words.specs.Words.{is_blank, begins_at, word_from, words_from};
ghost use Rattle.chair_words.specs.Reading.{is_between_words};

/// A word of a line, and where its first byte stands.
#[derive(Clone, Copy)]
pub struct Word<'a> {
    pub start: usize,
    pub text: &'a [u8],
}

/// Reads a line word by word.
#[derive(Drop)]
pub struct Words<'a> {
    pub line: &'a [u8],
    pub at: usize,
    ghost short: { length line.now ≤ longest_line },
    ghost within: { at ≤ length line.now },
    ghost outside: { IsTrue (is_between_words line.now at) },
}

/// Whether the byte parts words: space, tab or carriage return.
fn is_blank(byte: u8) -> bool
    ensures { result ≡ is_blank byte }
{
    matches!(byte, b' ' | b'\t' | b'\r')
}

/// The first byte from here on that is no blank, or the line's end.
pub fn word_start(line: &[u8], from: usize) -> usize
    requires within { from ≤ length line.now }
    requires outside { IsTrue (is_between_words line.now from) }
    ensures within { result ≤ length line.now }
    ensures begins { result < length line.now → begins_at line.now result ≡ true }
    ensures same { words_from line.now from ≡ words_from line.now result }
{
    let mut at = from;
    while at < line.len() && is_blank(line[at]) {
        at += 1;
    }
    at
}

/// The end of the word that begins here.
fn word_end(line: &[u8], start: usize) -> usize
    requires within { start < length line.now }
    requires begins { begins_at line.now start ≡ true }
    ensures above { start < result }
    ensures within { result ≤ length line.now }
    ensures outside { IsTrue (is_between_words line.now result) }
    ensures word { words_from line.now start
        ≡ word_from start (slice_range line.now start result) ∷ words_from line.now result }
{
    let mut end = start + 1;
    while end < line.len() && !is_blank(line[end]) {
        end += 1;
    }
    end
}

impl<'a> Words<'a> {
    /// The words of a line, from its first on.
    pub fn new(line: &'a [u8]) -> Words<'a>
        requires { length line.now ≤ longest_line }
        ensures line { result.line.now ≡ line.now }
        ensures at { result.at ≡ 0 }
    {
        Words { line, at: 0 }
    }

    /// The next word, or none where blanks alone are left.
    pub fn next(&mut self) -> Option<Word<'a>>
        ensures line { self.new.line.now ≡ self.old.line.now }
        ensures start { IfSome result (λ w. w.start ≤ longest_line) }
        ensures none { IfNone result (words_from self.old.line.now self.old.at ≡ []) }
        ensures some { IfSome result (λ w. words_from self.old.line.now self.old.at
            ≡ word_from w.start w.text.now ∷ words_from self.new.line.now self.new.at) }
    {
        let start = word_start(self.line, self.at);
        if start == self.line.len() {
            return None;
        }
        let end = word_end(self.line, start);
        self.at = end;
        Some(Word {
            start,
            text: &self.line[start..end],
        })
    }
}
