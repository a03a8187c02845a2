//! The replies to calls.

ghost use Rattle.std.specs.Prelude.{◌≡◌};
ghost use Rattle.nd_run.specs.CallReplies.{said_reply, said_unless};

use nd_steps::Cause;

/// The reply to a call.
#[derive(Debug, Drop)]
pub enum Reply<A> {
    /// The call was carried out.
    Done,
    /// The call was refused and changed nothing. This is the number of the cause (`Cause::number`).
    Refused(u8),
    /// The lengths of the array.
    Shape(Vec<usize>),
    /// The lengths of the array, and its elements in row-major order.
    Elements(Vec<usize>, Vec<A>),
    /// The element at an index, or None if the array has none there.
    Element(Option<A>),
    /// The reply to a question that is true or false.
    Truth(bool),
    /// The number of elements that were counted.
    Number(usize),
}

/// Returns `Reply::Done` if there is no cause against the call, and otherwise its refusal.
pub(crate) fn done_unless<A>(refused: Option<Cause>) -> Reply<A>
    ensures { said_reply result ≡ said_unless refused }
{
    match refused {
        None => Reply::Done,
        Some(cause) => Reply::Refused(cause.number()),
    }
}
