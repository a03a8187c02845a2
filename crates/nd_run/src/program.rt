//! The whole program, over any reader and writer.

ghost use Rattle.std.specs.Prelude.{◌≡◌, ◌≤◌, ◌||◌, ◌==◌};
ghost use Rattle.nd_run.specs.OutcomesOfCalls.{replies_before};
ghost use Rattle.nd_run.specs.ScriptEndings.{OutOfMemory, ending};
ghost use Rattle.nd_run.specs.OutputAndStatus.{Driven, TellsEnd, TellsRun, TellsBadLine, TellsWant, TellsBeginning, StopsAtFailure};
ghost use Rattle.nd_text.specs.WatchedReadersAndWriters.{watched_failed, watched_retried, GetsFlushed};

use crate::output_and_exit_status::{Outcome, conclude, conclude_whole, load};
use crate::run_calls::{RunFault, run_held};
use nd_read::Script;
use nd_text::Watched;
use std::alloc::Global;
use std::io::{Read, Write};

/// Returns the outcome of a script for which memory was refused while it ran.
fn stopped(fault: RunFault<i64>) -> Outcome
    ensures { ending result ≡ OutOfMemory (replies_before fault) }
{
    match fault {
        RunFault::Memory(replies) => Outcome::Memory(replies),
    }
}

/// Does what `drive` does; one of its clauses speaks of all ways in which a script ends.
fn drive_to_end<R: Read, W: Write>(
    alloc: Global,
    input: &mut Watched<R>,
    output: &mut Watched<W>,
) -> u8
    ensures driven { Driven R.remaining W.contents input.old input.new output.old output.new result }
    ensures stops { StopsAtFailure output.old output.new }
    ensures stops_reading { watched_retried input.new ≡ watched_retried input.old }
    ensures flushed { GetsFlushed output.old output.new }
    ensures status { (result == 3) ≡ (watched_failed input.new || watched_failed output.new) }
    ensures statuses { result ≤ 3 }
{
    match load(alloc, input) {
        Ok(Script { start, calls }) => match run_held(alloc, start, &calls) {
            Ok((replies, array)) => conclude_whole(output, &replies, &array),
            Err(fault) => conclude(output, &stopped(fault)),
        },
        Err(outcome) => conclude(output, &outcome),
    }
}

/// Reads a script to the end of the input, runs it, and writes its replies and how it ended. Returns the status: 0 if
/// all calls ran, 1 if a line is bad, 2 if memory was refused, and 3 if a call of the reader or of the writer failed.
/// After such a failure no other call of the same reader or writer is made. ndarray has no such call.
pub fn drive<R: Read, W: Write>(
    alloc: Global,
    input: &mut Watched<R>,
    output: &mut Watched<W>,
) -> u8
    ensures text { TellsEnd R.remaining W.contents input.old input.new output.old output.new }
    ensures finished { result ≡ 0 → TellsRun R.remaining W.contents input.old output.old output.new }
    ensures bad_line { result ≡ 1 → TellsBadLine R.remaining W.contents input.old output.old output.new }
    ensures memory { result ≡ 2 → TellsWant R.remaining W.contents input.old output.old output.new }
    ensures beginning { TellsBeginning R.remaining W.contents input.old input.new output.old output.new }
    ensures stops { StopsAtFailure output.old output.new }
    ensures stops_reading { watched_retried input.new ≡ watched_retried input.old }
    ensures flushed { GetsFlushed output.old output.new }
    ensures status { (result == 3) ≡ (watched_failed input.new || watched_failed output.new) }
    ensures statuses { result ≤ 3 }
{
    drive_to_end(alloc, input, output)
}
