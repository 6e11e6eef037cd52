//! One stream in memory.
ghost use Rattle.std.specs.Prelude.{◌≡◌, ◌<◌, ◌≤◌, ◌↔◌, ◌++◌, [], length, take, IsNone, IfSome, IfOk, IfNone, vec_capacity};

use sg_base::Memory;
use std::alloc::Global;

/// The bytes that were written, and how many there can be. Their memory was taken when it was made.
#[derive(Drop)]
pub struct MemStream {
    pub bytes: Vec<u8>,
    pub room: usize,
    ghost held: { length bytes.items ≤ room },
    ghost reserved: { room ≤ vec_capacity bytes },
}

impl MemStream {
    ghost use Rattle.sg_edge.specs.kept.Streams.{stream_taken};

    pub fn new(alloc: Global, room: usize) -> Result<MemStream, Memory>
        ensures { IfOk result (λ m. (m.bytes.items ≡ []) × (m.room ≡ room)) }
    {
        Ok(MemStream {
            bytes: Vec::with_capacity(alloc, room)?,
            room,
        })
    }

    /// Appends at most `piece` bytes of the text; `None` if the room is full.
    pub fn write(&mut self, text: &[u8], piece: usize) -> Option<usize>
        requires some { 0 < length text.now }
        requires piece { 0 < piece }
        ensures wrote { IfSome result
            (λ n. self.new.bytes.items ≡ self.old.bytes.items ++ take n text.now) }
        ensures most { IfSome result (λ n. n ≡ stream_taken self.old (length text.now) piece) }
        ensures count { IfSome result (λ n. (0 < n) × (n ≤ length text.now)) }
        ensures full { IsNone result ↔ (self.old.room ≡ length self.old.bytes.items) }
        ensures none { IfNone result (self.new.bytes.items ≡ self.old.bytes.items) }
        ensures room { self.new.room ≡ self.old.room }
    {
        let n = text.len().min(piece).min(self.room - self.bytes.len());
        if n == 0 {
            return None;
        }
        if self.bytes.extend_from_slice(&text[..n]).is_err() {
            return None;
        }
        Some(n)
    }
}
