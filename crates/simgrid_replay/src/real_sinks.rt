//! The real outputs: calls are passed on to std, lines wait in a buffer before it, and no contract can say what they
//! hold.
ghost use Rattle.std.specs.Prelude.{◌≡◌, ◌<◌, ◌≤◌, length, IfOk, IsErr, IsTrue, None};
ghost use Rattle.std.specs.Io.KnownBytes.{WriteAppends};
ghost use Rattle.sg_edge.specs.Sinks.{one_if};

use sg_base::Memory;
use sg_edge::{Failed, Sinks, Stream};
use std::io::{BufWriter, IsTerminal, Stdout, Write};

/// The bytes of the buffer for standard output.
const ROOM: usize = 8192;

// Passes a piece on to a writer, which takes a byte or fails.
fn write_to<W: Write>(to: &mut W, piece: &[u8]) -> Result<usize, Failed>
    requires { 0 < length piece.now }
    ensures count { IfOk result (λ n. (0 < n) × (n ≤ length piece.now)) }
    ensures bytes { WriteAppends (W.contents to.old) (W.contents to.new) result piece.now }
{
    match to.write(piece) {
        Ok(0) | Err(_) => Err(Failed),
        Ok(n) => Ok(n),
    }
}

/// Standard output and standard error. What is written to standard output waits in a buffer, unless whoever reads it
/// may wait for it; it is written before anything goes to standard error, so that the order on one device stays.
#[derive(Drop)]
pub struct RealSinks {
    rt: HostRuntime,
    out: BufWriter<Stdout>,
    broken: bool,
}

impl RealSinks {
    /// Makes two streams on which no write has failed. With `at_once`, or if standard output is a terminal, each write
    /// goes out as it comes, since a buffer without room keeps nothing.
    ///
    /// # Errors
    ///
    /// Out of memory for the buffer.
    pub fn new(rt: HostRuntime, at_once: bool) -> Result<RealSinks, Memory>
        ensures { IfOk result (λ sinks. one_if sinks.broken ≡ 0) }
    {
        let stdout = rt.stdout();
        let room = if at_once || stdout.is_terminal() {
            0
        } else {
            ROOM
        };
        match BufWriter::with_capacity(rt.alloc(), room, stdout) {
            Ok(out) => Ok(RealSinks {
                rt,
                out,
                broken: false,
            }),
            Err(_) => Err(Memory),
        }
    }

    // Writes what waits, and then passes the piece on to standard error.
    fn write_error(&mut self, piece: &[u8]) -> Result<usize, Failed>
        requires { 0 < length piece.now }
        ensures count { IfOk result (λ n. (0 < n) × (n ≤ length piece.now)) }
        ensures broken { self.new.broken ≡ self.old.broken }
    {
        match self.out.flush() {
            Ok(()) => write_to(&mut self.rt.stderr(), piece),
            Err(_) => Err(Failed),
        }
    }

    /// Writes what waits. If a write has failed before, nothing more is written.
    ///
    /// # Errors
    ///
    /// A write has failed, now or before.
    pub fn finish(self) -> Result<(), Failed>
        ensures { IsTrue self.broken → IsErr result }
    {
        let RealSinks { rt: _, out, broken } = self;
        if broken {
            let (_, _) = out.into_parts();
            return Err(Failed);
        }
        match out.into_inner() {
            Ok(_) => Ok(()),
            Err(unwritten) => {
                let (_, _) = unwritten.into_inner().into_parts();
                Err(Failed)
            }
        }
    }
}

impl Sinks for RealSinks {
    ghost contents = { λ m s. None };

    ghost faults = { λ m. one_if m.broken };

    fn write(&mut self, to: Stream, piece: &[u8]) -> Result<usize, Failed> {
        let done = match to {
            Stream::Out => write_to(&mut self.out, piece),
            Stream::Err => self.write_error(piece),
        };
        if done.is_err() {
            self.broken = true;
        }
        done
    }
}
