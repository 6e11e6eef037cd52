//! Bytes that were read and belong to no line yet.
ghost use Rattle.std.specs.Prelude.{◌≡◌, ◌≤◌, ◌++◌, [], length, drop, IfOk, IsTrue, true};
ghost use Rattle.std.specs.List.{list_all};
ghost use Rattle.sg_script.specs.kept.Front.{is_text as is_text_spec};

use sg_base::Memory;
use std::alloc::Global;
use std::marker::Model;

/// The most bytes that one read takes.
pub const PIECE: usize = 4096;

/// At most two pieces of bytes. Their memory is taken when it is made.
#[derive(Drop)]
pub struct Pending {
    buffer: Vec<u8>,
    at: usize,
    /// Whether each byte of the buffer may stand in a line, or ends one.
    plain: bool,
}

impl Model for Pending {
    ghost use Rattle.std.specs.Prelude.{ℕ, List, length, drop, ◌≡◌, ◌≤◌};
    ghost use Rattle.std.specs.List.{list_all};
    ghost use Rattle.std.specs.Vec.{vec_capacity};
    ghost use Rattle.sg_script.specs.kept.Front.{is_text};

    ghost Value = { List ℕ };

    ghost view = { λ p. drop p.at p.buffer.items };

    ghost invariant = { λ p. (p.at ≤ length p.buffer.items)
        × (length p.buffer.items ≤ 8192) × (8192 ≤ vec_capacity p.buffer)
        × (p.plain ≡ list_all is_text p.buffer.items) };
}

fn is_text(b: u8) -> bool
    ensures { result ≡ is_text_spec b }
{
    b == b'\t' || b == b'\n' || (b' ' <= b && b <= b'~')
}

// Returns whether each of these bytes may stand in a line, or ends one. It looks at all of them, many at a time.
fn are_text(bytes: &[u8]) -> bool
    ensures { result ≡ list_all is_text_spec bytes.now }
{
    let mut all = true;
    for b in bytes {
        all = all & is_text(*b);
    }
    all
}

impl Pending {
    pub fn new(alloc: Global) -> Result<Pending, Memory>
        ensures { IfOk result (λ p. p ≡ []) }
    {
        Ok(Pending {
            buffer: Vec::with_capacity(alloc, 2 * PIECE)?,
            at: 0,
            plain: true,
        })
    }

    pub fn bytes(&self) -> &[u8]
        ensures value { result.now ≡ self.now }
        ensures few { length result.now ≤ 8192 }
    {
        &self.buffer[self.at..]
    }

    /// Returns whether it is known that each byte may stand in a line, or ends one.
    #[tactic(auto, using(crate::proofs::PlainLemmas::all_dropped))]
    pub fn is_plain(&self) -> bool
        ensures { IsTrue result → list_all is_text_spec self.now ≡ true }
    {
        self.plain
    }

    /// Takes so many bytes off the front.
    pub fn advance(&mut self, n: usize)
        requires { n ≤ length self.old }
        ensures { self.new ≡ drop n self.old }
    {
        self.at += n;
    }

    /// Appends a piece. It takes no memory.
    pub fn add(&mut self, piece: &[u8])
        requires few { length self.old ≤ 4096 }
        requires piece { length piece.now ≤ 4096 }
        ensures { self.new ≡ self.old ++ piece.now }
    {
        let mut bytes = [0u8; PIECE];
        let n = self.buffer.len() - self.at;
        bytes[..n].copy_from_slice(&self.buffer[self.at..]);
        self.at = 0;
        self.buffer.clear();
        let _ = self.buffer.extend_from_slice(&bytes[..n]);
        let _ = self.buffer.extend_from_slice(piece);
        self.plain = are_text(&self.buffer);
    }
}
