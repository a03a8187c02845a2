//! A buffer of fixed size for bytes that are to be written. It takes no memory from an allocator.

ghost use Rattle.std.specs.Prelude.{◌≡◌, ◌+◌, nat_le, length, [], ◌++◌, if◌then◌else◌};

use std::marker::Model;

/// A buffer for at most 8 KiB of bytes that are to be written. The bytes lie in the value itself.
#[derive(Drop)]
pub struct Page {
    bytes: [u8; PAGE_LEN],
    len: usize,
}

/// The size of the buffer in bytes. Not measured by itself.
const PAGE_LEN: usize = 8192;

impl Model for Page {
    ghost use Rattle.std.specs.Prelude.{ℕ, ◌≤◌, List, take};

    ghost Value = { List ℕ };

    ghost view = { λ p. take p.len p.bytes };

    ghost invariant = { λ p. p.len ≤ 8192 };
}

impl Page {
    pub fn new() -> Page
        ensures { result ≡ [] }
    {
        Page {
            bytes: [0; PAGE_LEN],
            len: 0,
        }
    }

    /// Returns the bytes in the buffer.
    pub fn as_slice(&self) -> &[u8]
        ensures { result.now ≡ self.now }
    {
        &self.bytes[..self.len]
    }

    pub fn clear(&mut self)
        ensures { self.new ≡ [] }
    {
        self.len = 0;
    }

    /// Appends `text` to the bytes in the buffer if there is room for it, and returns whether there was.
    pub fn add(&mut self, text: &[u8]) -> bool
        ensures room { result ≡ nat_le (length self.old + length text.now) 8192 }
        ensures bytes { self.new ≡ (if result then self.old ++ text.now else self.old) }
    {
        if text.len() > PAGE_LEN - self.len {
            return false;
        }
        let end = self.len + text.len();
        self.bytes[self.len..end].copy_from_slice(text);
        self.len = end;
        true
    }
}
