//! Writing to a watched writer through a page, a buffer that takes no memory. After a call of the writer has failed,
//! nothing more is written.

ghost use Rattle.std.specs.Prelude.{◌≡◌, [], ◌++◌, codes};
ghost use Rattle.std.specs.List.{flat_map};
ghost use Rattle.nd_text.specs.BufferedPrinting.{Puts, TakesText, Writes};
ghost use Rattle.nd_text.specs.NumberTexts.{list_text};
ghost use Rattle.nd_text.specs.WatchedReadersAndWriters.{GetsFlushed};

use crate::output_page::Page;
use crate::watched_streams::Watched;
use itoa::{Buffer, Integer};
use std::io::Write;

/// Writes the whole text, in as many calls as the writer needs. It stops at the first call that fails.
pub fn write_text<W: Write>(out: &mut Watched<W>, text: &[u8])
    ensures { Writes W.contents out.old out.new text.now }
{
    let mut rest = text;
    while !rest.is_empty() && !out.failed() {
        match out.write(rest) {
            Ok(count) => rest = &rest[count..],
            Err(_) => return,
        }
    }
}

/// Appends `text` to the page. If there is no room for it, the bytes in the page are written first, and then a text
/// that is longer than a page is written too.
pub fn put<W: Write>(out: &mut Watched<W>, page: &mut Page, text: &[u8])
    ensures { Puts W.contents out.old page.old out.new page.new text.now }
{
    if page.add(text) {
        return;
    }
    write_text(out, page.as_slice());
    page.clear();
    if page.add(text) {
        return;
    }
    write_text(out, text);
}

pub fn put_number<W: Write, I: Integer>(
    out: &mut Watched<W>,
    page: &mut Page,
    buffer: &mut Buffer,
    number: &I,
)
    ensures { Puts W.contents out.old page.old out.new page.new (I.text number.now) }
{
    put(out, page, buffer.format(*number).as_bytes());
}

/// Appends, for each of `numbers`, a space and the number to the page.
pub fn put_numbers<W: Write, I: Integer>(out: &mut Watched<W>, page: &mut Page, numbers: &[I])
    ensures { Puts W.contents out.old page.old out.new page.new (flat_map (λ n. codes " " ++ I.text n) numbers.now) }
{
    let mut buffer = Buffer::new();
    for number in numbers {
        put(out, page, b" ");
        put_number(out, page, &mut buffer, number);
    }
}

pub fn put_list<W: Write>(out: &mut Watched<W>, page: &mut Page, numbers: &[usize])
    ensures { Puts W.contents out.old page.old out.new page.new (list_text numbers.now) }
{
    put_number(out, page, &mut Buffer::new(), &numbers.len());
    put_numbers(out, page, numbers);
}

/// Writes the bytes in the page, and then flushes the writer if no call has failed.
pub fn finish<W: Write>(output: &mut Watched<W>, page: &Page)
    ensures text { TakesText W.contents output.old output.new page.now }
    ensures flushed { GetsFlushed output.old output.new }
{
    write_text(output, page.as_slice());
    flush(output);
}

fn flush<W: Write>(output: &mut Watched<W>)
    ensures text { TakesText W.contents output.old output.new [] }
    ensures flushed { GetsFlushed output.old output.new }
{
    if !output.failed() {
        let _ = output.flush();
    }
}
