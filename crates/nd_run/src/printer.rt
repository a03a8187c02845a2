//! Writing replies as text, through a page, a buffer that takes no memory.

ghost use Rattle.std.specs.Prelude.{◌≡◌, map};
ghost use Rattle.nd_run.specs.CallReplies.{said_reply};
ghost use Rattle.nd_text.specs.BufferedPrinting.{Puts};
ghost use Rattle.nd_run.specs.ReplyTexts.{found_element_text, reply_words, replies_text};

use crate::replies::Reply;
use itoa::Buffer;
use nd_text::buffered_printing::{put, put_list, put_number, put_numbers};
use nd_text::{Page, Watched};
use std::io::Write;

fn put_element<W: Write>(out: &mut Watched<W>, page: &mut Page, element: &Option<i64>)
    ensures { Puts W.contents out.old page.old out.new page.new (found_element_text element.now) }
{
    match element {
        None => put(out, page, b"none"),
        Some(value) => {
            put(out, page, b"some ");
            put_number(out, page, &mut Buffer::new(), value);
        }
    }
}

fn put_words<W: Write>(out: &mut Watched<W>, page: &mut Page, reply: &Reply<i64>)
    ensures { Puts W.contents out.old page.old out.new page.new (reply_words (said_reply reply.now)) }
{
    match reply {
        Reply::Done => put(out, page, b"done"),
        Reply::Refused(cause) => {
            put(out, page, b"refused ");
            put_number(out, page, &mut Buffer::new(), cause);
        }
        Reply::Shape(lengths) => {
            put(out, page, b"shape ");
            put_list(out, page, lengths);
        }
        Reply::Elements(lengths, elements) => {
            put(out, page, b"array ");
            put_list(out, page, lengths);
            put_numbers(out, page, elements);
        }
        Reply::Element(element) => put_element(out, page, element),
        Reply::Truth(truth) => put(out, page, if *truth { b"true" } else { b"false" }),
        Reply::Number(number) => {
            put(out, page, b"number ");
            put_number(out, page, &mut Buffer::new(), number);
        }
    }
}

/// Writes a line for each reply.
pub fn put_replies<W: Write>(out: &mut Watched<W>, page: &mut Page, replies: &[Reply<i64>])
    ensures { Puts W.contents out.old page.old out.new page.new (replies_text (map said_reply replies.now)) }
{
    for reply in replies {
        put_words(out, page, reply);
        put(out, page, b"\n");
    }
}
