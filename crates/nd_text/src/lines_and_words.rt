//! Splitting lines from the front of a text, and words from the front of a line.

ghost use Rattle.std.specs.Prelude.{◌≡◌, ◌==◌, not, ◌∷◌, ◌<◌, ◌≤◌, ◌↔◌, [], length, IsTrue, IfSome, MatchOption};
ghost use Rattle.std.specs.List.{position};
ghost use Rattle.nd_text.specs.LinesAndWords.{lines_of, words_of, is_blank, word_goes_on, begins_word, words_begun, words_after, is_wordless};

use memchr::memchr;

pub(crate) fn is_blank(byte: u8) -> bool
    ensures { result ≡ is_blank byte }
{
    byte == b' ' || byte == b'\t' || byte == b'\r'
}

/// Returns the index of the first line feed of `text`.
fn line_end(text: &[u8]) -> Option<usize>
    ensures { result ≡ position (λ b. b == 10) text.now }
{
    memchr(b'\n', text)
}

/// Returns the index of the first blank of `line`, which is a space, a tab or a carriage return.
fn word_end(line: &[u8]) -> Option<usize>
    ensures place { result ≡ position is_blank line.now }
    ensures inside { IfSome result (λ end. end < length line.now) }
{
    line.iter().position(|byte| is_blank(*byte))
}

/// Returns `line` without the blanks at its front. Mostly there are none, since the bytes after a word begin after the
/// blank that ends it.
pub(crate) fn trim_start(line: &[u8]) -> &[u8]
    ensures words { words_of result.now ≡ words_of line.now }
    ensures front { word_goes_on result.now ≡ not (length result.now == 0) }
    ensures shorter { length result.now ≤ length line.now }
{
    match line {
        [first, rest @ ..] if is_blank(*first) => skip_blanks(rest),
        _ => line,
    }
}

/// Returns `line` without the blanks at its front. This function is not inlined, because there are seldom any.
#[inline(never)]
fn skip_blanks(line: &[u8]) -> &[u8]
    ensures words { words_of result.now ≡ words_of line.now }
    ensures front { word_goes_on result.now ≡ not (length result.now == 0) }
    ensures shorter { length result.now ≤ length line.now }
{
    let mut rest = line;
    while let [first, after @ ..] = rest {
        if !is_blank(*first) {
            return rest;
        }
        rest = after;
    }
    rest
}

/// Returns the first line of a text, and the text after its line feed. The text must not be empty.
pub fn split_line(text: &[u8]) -> (&[u8], &[u8])
    requires { 0 < length text.now }
    ensures lines { lines_of text.now ≡ result.0.now ∷ lines_of result.1.now }
    ensures shorter { length result.1.now < length text.now }
{
    match line_end(text) {
        Some(end) => (&text[..end], &text[end + 1..]),
        None => (text, &[]),
    }
}

/// Returns the first word of a line, and the rest of the line after it. The result is None where the line has no word.
pub fn split_word(line: &[u8]) -> Option<(&[u8], &[u8])>
    ensures words { MatchOption result (words_of line.now ≡ []) (λ x. words_of line.now ≡ x.0.now ∷ words_of x.1.now) }
    ensures shorter { IfSome result (λ x. length x.1.now < length line.now) }
{
    let line = trim_start(line);
    if line.is_empty() {
        return None;
    }
    match word_end(line) {
        Some(end) => Some((&line[..end], &line[end + 1..])),
        None => Some((line, &[])),
    }
}

/// Returns whether a word begins with `byte`. `after_blank` tells whether it follows a blank.
fn begins_word(after_blank: bool, byte: u8) -> bool
    ensures { result ≡ begins_word after_blank byte }
{
    after_blank & !is_blank(byte)
}

/// Returns whether at least `count` words begin in `bytes`. `after_blank` tells whether the first byte follows a blank.
fn has_words_in(bytes: &[u8], after_blank: bool, count: usize) -> bool
    ensures { IsTrue result ↔ (count ≤ words_begun after_blank bytes.now) }
{
    let mut left = count;
    let mut after_blank = after_blank;
    for byte in bytes {
        if left == 0 {
            return true;
        }
        left -= usize::from(begins_word(after_blank, *byte));
        after_blank = is_blank(*byte);
    }
    left == 0
}

/// The number of bytes that are looked at before the next test whether enough words were found. Not measured by itself.
const BYTES_BETWEEN_TESTS: usize = 64;

/// Returns how many words begin in the 64 bytes after the first byte of `bytes`. The loop has no branch, so that many
/// bytes are done at once.
fn words_in_block(bytes: &[u8]) -> usize
    requires { length bytes.now ≡ 65 }
    ensures { result ≡ words_after bytes.now }
{
    let mut begun = 0u8;
    for nth in 0..BYTES_BETWEEN_TESTS {
        begun += u8::from(begins_word(is_blank(bytes[nth]), bytes[nth + 1]));
    }
    usize::from(begun)
}

/// Returns whether at least `count` words begin after the first byte of `bytes`.
fn has_words_after(bytes: &[u8], count: usize) -> bool
    ensures { IsTrue result ↔ (count ≤ words_after bytes.now) }
{
    let mut left = count;
    let mut rest = bytes;
    while rest.len() > BYTES_BETWEEN_TESTS {
        let found = words_in_block(&rest[..BYTES_BETWEEN_TESTS + 1]);
        if left <= found {
            return true;
        }
        left -= found;
        rest = &rest[BYTES_BETWEEN_TESTS..];
    }
    match rest {
        [first, after @ ..] => has_words_in(after, is_blank(*first), left),
        [] => left == 0,
    }
}

/// Returns whether a line has at least `count` words.
pub fn has_words(line: &[u8], count: usize) -> bool
    ensures { IsTrue result ↔ (count ≤ length (words_of line.now)) }
{
    match line {
        [first, ..] => has_words_after(line, count.saturating_sub(usize::from(!is_blank(*first)))),
        [] => count == 0,
    }
}

/// Returns whether a line has no word.
pub fn is_wordless(line: &[u8]) -> bool
    ensures { result ≡ is_wordless (words_of line.now) }
{
    split_word(line).is_none()
}
