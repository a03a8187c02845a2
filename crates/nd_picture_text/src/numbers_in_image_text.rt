//! Reading numbers from the front of an image's bytes. An error is the number of bytes that are left where reading
//! stops.

ghost use Rattle.std.specs.Prelude.{◌≡◌, ◌+◌, ◌-◌, ◌*◌, ◌<◌, ◌≤◌, ◌^◌, IfOk, SomeIff, false, true, IsTrue};
ghost use Rattle.std.specs.Result.{result_map_both};
ghost use Rattle.nd_picture_text.specs.NumbersInImageText.{ends_line, is_whitespace, image_takes_digit, wants_digit, after_line, after_gap, after_blank, number_end, image_digits_after, image_number_here, next_number};

fn ends_line(byte: u8) -> bool
    ensures { result ≡ ends_line byte }
{
    byte == b'\n' || byte == b'\r'
}

fn is_whitespace(byte: u8) -> bool
    ensures { result ≡ is_whitespace byte }
{
    byte == b' ' || byte == b'\t' || ends_line(byte)
}

/// Returns what follows the end of the line, or nothing if the line has no end.
fn after_line(text: &[u8]) -> &[u8]
    ensures { result.now ≡ after_line text.now }
{
    let mut rest = text;
    while let [byte, after @ ..] = rest {
        rest = after;
        if ends_line(*byte) {
            return rest;
        }
    }
    rest
}

/// Returns what follows the blanks and comments at the front of `text`. A comment lasts from a `#` to the end of its
/// line.
pub(crate) fn after_gap(text: &[u8]) -> &[u8]
    ensures { result.now ≡ after_gap false text.now }
{
    let mut inside = false;
    let mut rest = text;
    while let [byte, after @ ..] = rest {
        if inside {
            inside = !ends_line(*byte);
            rest = after;
            continue;
        }
        if *byte == b'#' {
            inside = true;
            rest = after;
            continue;
        }
        if !is_whitespace(*byte) {
            return rest;
        }
        rest = after;
    }
    rest
}

/// Returns what follows a single blank or comment at the front of `text`. Fails with the number of bytes that are left
/// if none stands there.
pub(crate) fn after_blank(text: &[u8]) -> Result<&[u8], usize>
    ensures { result_map_both (λ x. x.now) (λ n. n) result ≡ after_blank text.now }
{
    match text {
        [] => Err(0),
        [b'#', after @ ..] => Ok(after_line(after)),
        [byte, after @ ..] if is_whitespace(*byte) => Ok(after),
        _ => Err(text.len()),
    }
}

/// Returns the value of the digits with the value `number` followed by the digit `byte`. Returns `None` if `byte` is no
/// digit or the value is above `limit`.
fn with_digit(limit: usize, number: usize, byte: u8) -> Option<usize>
    requires number { number ≤ limit }
    requires limit { limit < 2 ^ 32 }
    ensures { SomeIff result (IsTrue (image_takes_digit limit number byte)) (number * 10 + (byte - 48)) }
{
    if !byte.is_ascii_digit() {
        return None;
    }
    let more = number * 10 + (byte - b'0') as usize;
    if more > limit {
        return None;
    }
    Some(more)
}

/// Returns whether a number with the value `number` so far must have more digits: if it is 0 and must be `positive`.
fn wants_digit(positive: bool, number: usize) -> bool
    ensures { result ≡ wants_digit positive number }
{
    positive && number == 0
}

/// Returns the number `number`, which `text` ends, and the bytes after the blank that ends it. Fails if the number must
/// have more digits, or if no blank stands there.
fn number_end(positive: bool, number: usize, text: &[u8]) -> Result<(usize, &[u8]), usize>
    ensures value { result_map_both (λ x. (x.0, x.1.now)) (λ n. n) result ≡ number_end positive number text.now }
    ensures same { IfOk result (λ x. x.0 ≡ number) }
    ensures some { positive ≡ true → IfOk result (λ x. 0 < x.0) }
{
    if wants_digit(positive, number) {
        return Err(text.len());
    }
    if text.is_empty() {
        return Ok((number, text));
    }
    match after_blank(text) {
        Ok(rest) => Ok((number, rest)),
        Err(left) => Err(left),
    }
}

/// Reads the rest of a number from the front of `text`, where the digits before it have the value `first`. Returns the
/// number, and the bytes after it and one blank.
fn digits_after(
    positive: bool,
    limit: usize,
    first: usize,
    text: &[u8],
) -> Result<(usize, &[u8]), usize>
    requires first { first ≤ limit }
    requires limit { limit < 2 ^ 32 }
    ensures value { result_map_both (λ x. (x.0, x.1.now)) (λ n. n) result ≡ image_digits_after positive limit first text.now }
    ensures within { IfOk result (λ x. x.0 ≤ limit) }
    ensures some { positive ≡ true → IfOk result (λ x. 0 < x.0) }
{
    let mut number = first;
    let mut rest = text;
    while let [byte, after @ ..] = rest {
        match with_digit(limit, number, *byte) {
            Some(more) => number = more,
            None => return number_end(positive, number, rest),
        }
        rest = after;
    }
    number_end(positive, number, rest)
}

/// Reads a number from the front of `text`. Returns the number, and the bytes after it and one blank.
fn number_here(positive: bool, limit: usize, text: &[u8]) -> Result<(usize, &[u8]), usize>
    requires { limit < 2 ^ 32 }
    ensures value { result_map_both (λ x. (x.0, x.1.now)) (λ n. n) result ≡ image_number_here positive limit text.now }
    ensures within { IfOk result (λ x. x.0 ≤ limit) }
    ensures some { positive ≡ true → IfOk result (λ x. 0 < x.0) }
{
    match text {
        [] => Err(0),
        [byte, after @ ..] => match with_digit(limit, 0, *byte) {
            Some(first) => digits_after(positive, limit, first, after),
            None => Err(text.len()),
        },
    }
}

/// Reads the next number of `text`, with or without blanks and comments before it. Returns the number, which isn't 0 if
/// it must be `positive`, and the bytes after it and one blank.
#[tactic(auto, unfolding(crate::specs::NumbersInImageText::next_number))]
pub(crate) fn next_number(
    positive: bool,
    limit: usize,
    text: &[u8],
) -> Result<(usize, &[u8]), usize>
    requires { limit < 2 ^ 32 }
    ensures value { result_map_both (λ x. (x.0, x.1.now)) (λ n. n) result ≡ next_number positive limit text.now }
    ensures within { IfOk result (λ x. x.0 ≤ limit) }
    ensures some { positive ≡ true → IfOk result (λ x. 0 < x.0) }
{
    number_here(positive, limit, after_gap(text))
}
