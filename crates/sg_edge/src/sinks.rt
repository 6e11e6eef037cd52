//! The two outputs.
ghost use Rattle.std.specs.Prelude.{◌≡◌, ◌<◌, ◌≤◌, ℕ, List, Option, length, take, IfOk, OnOk, OnErr};
ghost use Rattle.sg_edge.specs.declared.sinks.Stream.{Stream};
ghost use Rattle.sg_edge.specs.Sinks.{gain, SameBut, GainsFront};

use crate::files::Failed;

/// An output stream.
#[derive(Clone, Copy)]
pub enum Stream {
    Out,
    Err,
}

/// The two streams to which output is written.
///
/// An implementation shows contracts what each stream holds, or `None` if nobody can know, and how many writes have
/// failed, on either stream. The count rises exactly in a write that returns `Failed`. Since no write follows one that
/// failed, a truth value serves an implementation as its count.
pub trait Sinks {
    /// What each stream holds, if that is known.
    ghost contents: { Self → Stream → Option (List ℕ) };

    /// How many writes have failed.
    ghost faults: { Self → ℕ };

    /// Appends the first bytes of the piece, at least one, and returns how many.
    ///
    /// A device that takes nothing fails. A write that fails appends nothing. The other stream stays as it is.
    fn write(&mut self, to: Stream, piece: &[u8]) -> Result<usize, Failed>
        requires some { 0 < length piece.now }
        requires sound { faults self.old ≡ 0 }
        ensures count { IfOk result (λ n. (0 < n) × (n ≤ length piece.now)) }
        ensures wrote { IfOk result
            (λ n. contents self.new to ≡ gain (contents self.old to) (take n piece.now)) }
        ensures sound { OnOk result (faults self.new ≡ faults self.old) }
        ensures nothing { OnErr result (contents self.new to ≡ contents self.old to) }
        ensures failed { OnErr result (faults self.old < faults self.new) }
        ensures other { SameBut to (contents self.old) (contents self.new) };
}

/// Appends the whole text, piece by piece.
///
/// After a failure the stream has gained a front of the text, maybe an empty one, and the count has risen.
pub fn write_all<O: Sinks>(out: &mut O, to: Stream, text: &[u8]) -> Result<(), Failed>
    requires { O.faults out.old ≡ 0 }
    ensures wrote { OnOk result (O.contents out.new to ≡ gain (O.contents out.old to) text.now) }
    ensures sound { OnOk result (O.faults out.new ≡ O.faults out.old) }
    ensures front { OnErr result
        (GainsFront text.now (O.contents out.old to) (O.contents out.new to)) }
    ensures failed { OnErr result (O.faults out.old < O.faults out.new) }
    ensures other { SameBut to (O.contents out.old) (O.contents out.new) }
{
    let mut rest = text;
    while !rest.is_empty() {
        let n = out.write(to, rest)?;
        rest = &rest[n..];
    }
    Ok(())
}
