//! Two streams in memory, with writes that fail at given numbers, or when the room is used up.
ghost use Rattle.std.specs.Prelude.{◌≡◌, ◌+◌, ◌<◌, ◌≤◌, length, take, not, is_ok, IfOk, OnOk, OnErr};
ghost use Rattle.sg_edge.specs.Sinks.{gain, one_if, SameBut};

use crate::failing_calls::is_among;
use crate::files::Failed;
use crate::mem_stream::MemStream;
use crate::sinks::{Sinks, Stream};
use sg_base::Memory;
use std::alloc::Global;

/// Two streams in memory.
///
/// A write fails if and only if its number is among those to fail, or its stream's room is full. Writes to both
/// streams are counted together from 1. A write takes as many bytes as the piece has, one write may take, and the
/// room holds.
#[derive(Drop)]
pub struct MemSinks {
    out: MemStream,
    err: MemStream,
    failing: Vec<u64>,
    calls: u128,
    piece: usize,
    broken: bool,
    ghost some: { 0 < piece },
    // Each write takes a byte, or is the last one, so the count of writes can't wrap.
    ghost few: { calls ≤ length out.bytes.items + length err.bytes.items + one_if broken },
}

impl MemSinks {
    ghost use Rattle.sg_edge.specs.MemSinks.{mem_text, StartsEmpty};

    /// Makes empty streams with so much room, the numbers of the writes that are to fail, and the most that one write
    /// takes. Their memory is taken here.
    pub fn new(
        alloc: Global,
        room_out: usize,
        room_err: usize,
        failing: &[u64],
        piece: usize,
    ) -> Result<MemSinks, Memory>
        requires { 0 < piece }
        ensures { IfOk result (StartsEmpty room_out room_err failing.now piece) }
    {
        Ok(MemSinks {
            out: MemStream::new(alloc, room_out)?,
            err: MemStream::new(alloc, room_err)?,
            failing: Vec::from_slice(alloc, failing)?,
            calls: 0,
            piece,
            broken: false,
        })
    }

    /// Returns what a stream holds.
    pub fn held(&self, to: Stream) -> &[u8]
        ensures { result.now ≡ mem_text self.now to }
    {
        match to {
            Stream::Out => &self.out.bytes,
            Stream::Err => &self.err.bytes,
        }
    }
}

impl Sinks for MemSinks {
    ghost use Rattle.sg_edge.specs.MemSinks.{mem_contents, mem_faults, write_fails, most_taken, CountsWrite};

    ghost contents = { mem_contents };

    ghost faults = { mem_faults };

    fn write(&mut self, to: Stream, piece: &[u8]) -> Result<usize, Failed>
        requires some { 0 < length piece.now }
        requires sound { mem_faults self.old ≡ 0 }
        ensures count { IfOk result (λ n. (0 < n) × (n ≤ length piece.now)) }
        ensures most { IfOk result (λ n. n ≡ most_taken self.old to (length piece.now)) }
        ensures wrote { IfOk result
            (λ n. mem_contents self.new to ≡ gain (mem_contents self.old to) (take n piece.now)) }
        ensures sound { OnOk result (mem_faults self.new ≡ mem_faults self.old) }
        ensures nothing { OnErr result (mem_contents self.new to ≡ mem_contents self.old to) }
        ensures failed { OnErr result (mem_faults self.old < mem_faults self.new) }
        ensures other { SameBut to (mem_contents self.old) (mem_contents self.new) }
        ensures exact { is_ok result ≡ not (write_fails self.old to) }
        ensures counted { CountsWrite self.old self.new }
    {
        let call = self.calls + 1;
        let fails = is_among(&self.failing, call);
        if fails {
            self.calls = call;
            self.broken = true;
            return Err(Failed);
        }
        let done = match to {
            Stream::Out => self.out.write(piece, self.piece),
            Stream::Err => self.err.write(piece, self.piece),
        };
        self.calls = call;
        match done {
            Some(n) => Ok(n),
            None => {
                self.broken = true;
                Err(Failed)
            }
        }
    }
}
