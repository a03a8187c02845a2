//! Reading all bytes of an input.

ghost use Rattle.std.specs.Prelude.{◌≡◌, ◌<◌, length, Err, IfOk, IfSome, OnOk};
ghost use Rattle.nd_text.specs.declared.read_input.InputError.TheVariants.{Memory};
ghost use Rattle.nd_text.specs.InputReading.{is_read_failure, IsFilled, ReadsOn};
ghost use Rattle.nd_text.specs.WatchedReadersAndWriters.{watched_inner, watched_failed, watched_retried};

use crate::watched_streams::Watched;
use std::alloc::{AllocError, Global};
use std::io::Read;

/// The cause why the input could not be read.
#[derive(Clone, Copy, Debug, PartialEq, Eq)]
pub enum InputError {
    /// A read failed.
    Failed,
    /// Memory was refused.
    Memory,
}

impl From<AllocError> for InputError {
    ghost from_gives = { λ _ e. e ≡ Memory };

    fn from(_error: AllocError) -> InputError {
        InputError::Memory
    }
}

/// Returns all bytes up to the end of the input. It stops at the first read that fails, and reads nothing if a call of
/// `input` has failed before. An input without bytes takes no memory.
pub fn read_input<R: Read>(alloc: Global, input: &mut Watched<R>) -> Result<Vec<u8>, InputError>
    ensures bytes { IfOk result (λ v. IfSome (R.remaining (watched_inner input.old)) (λ xs. xs ≡ v.items)) }
    ensures memory { result ≡ Err Memory → IfSome (R.remaining (watched_inner input.old)) (λ xs. 0 < length xs) }
    ensures failed { watched_failed input.new ≡ is_read_failure result }
    ensures stops { watched_retried input.new ≡ watched_retried input.old }
{
    if input.failed() {
        return Err(InputError::Failed);
    }
    let mut bytes = Vec::new(alloc);
    let mut piece = [0; PIECE_LEN];
    loop {
        match input.read(&mut piece) {
            Ok(0) => return Ok(bytes),
            Ok(count) => bytes.extend_from_slice(&piece[..count])?,
            Err(_) => return Err(InputError::Failed),
        }
    }
}

/// Reads until `bytes` has `size` bytes or more, or the input ends, and appends what it reads to `bytes`. It stops at the
/// first read that fails, and reads nothing if a call of `input` has failed before.
pub fn fill<R: Read>(
    input: &mut Watched<R>,
    bytes: &mut Vec<u8>,
    size: usize,
) -> Result<(), InputError>
    ensures bytes { OnOk result (ReadsOn R.remaining input.old input.new bytes.old.items bytes.new.items) }
    ensures filled { OnOk result (IsFilled R.remaining input.new bytes.new.items size) }
    ensures memory { result ≡ Err Memory → IfSome (R.remaining (watched_inner input.old)) (λ xs. 0 < length xs) }
    ensures failed { watched_failed input.new ≡ is_read_failure result }
    ensures stops { watched_retried input.new ≡ watched_retried input.old }
{
    if input.failed() {
        return Err(InputError::Failed);
    }
    let mut piece = [0; PIECE_LEN];
    while bytes.len() < size {
        match input.read(&mut piece) {
            Ok(0) => return Ok(()),
            Ok(count) => bytes.extend_from_slice(&piece[..count])?,
            Err(_) => return Err(InputError::Failed),
        }
    }
    Ok(())
}

/// The size in bytes of the buffer for one read, which is what a pipe holds.
const PIECE_LEN: usize = 65536;
