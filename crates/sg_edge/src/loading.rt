//! Input streams that are read whole.
ghost use Rattle.std.specs.Prelude.{◌≡◌, ◌+◌, ◌<◌, ◌^◌, IfOk, IsErrOf};
ghost use Rattle.sg_edge.specs.declared.files.Stage.TheVariants.{Fresh, Begun};
ghost use Rattle.sg_edge.specs.declared.loading.ReadError.TheVariants.{Memory, Fault};
ghost use Rattle.sg_edge.specs.Files.{Only, KeepsTelling, IsNamed, ReadsWhole, ReadsFault, TakesUpTo};
ghost use Rattle.sg_edge.specs.Sources.{Source, Gives, LoadedIs, FaultIs, IsFew, StopsBehind};

use crate::files::{Failed, Files, Part};
use std::alloc::{AllocError, Global};

/// Why an input stream was not read.
#[derive(Clone, Copy)]
pub enum ReadError {
    /// There was no memory for its bytes.
    Memory,
    /// A read failed.
    Fault,
}

impl From<AllocError> for ReadError {
    ghost from_gives = { λ _ e. e ≡ Memory };

    fn from(_: AllocError) -> Self {
        ReadError::Memory
    }
}

impl From<Failed> for ReadError {
    ghost from_gives = { λ _ e. e ≡ Fault };

    fn from(_: Failed) -> Self {
        ReadError::Fault
    }
}

/// What an input stream of at most so many bytes was read as.
#[derive(Drop)]
pub enum Loaded {
    /// All its bytes.
    Whole(Vec<u8>),
    /// It has more bytes than the most.
    TooLong,
    /// It could not be begun, or a read failed before more bytes than the most were taken.
    Fault,
    /// There was no memory for its bytes.
    Memory,
}

/// Reads an input stream to its end, or to `limit` bytes, whichever comes first.
///
/// After `Memory` the bytes taken so far are lost.
pub fn read_whole<F: Files>(
    alloc: Global,
    files: &mut F,
    part: Part,
    limit: usize,
) -> Result<Vec<u8>, ReadError>
    requires { (F.shows files.old part).stage ≡ Begun }
    ensures whole { IfOk result
        (λ bytes. ReadsWhole limit bytes.items (F.shows files.old part) (F.shows files.new part)) }
    ensures fault { IsErrOf result Fault
        → ReadsFault limit (F.shows files.old part) (F.shows files.new part) }
    ensures memory { IsErrOf result Memory
        → (F.shows files.new part).faults ≡ (F.shows files.old part).faults }
    ensures most { TakesUpTo limit (F.shows files.old part) (F.shows files.new part) }
    ensures name { (F.shows files.new part).name ≡ (F.shows files.old part).name }
    ensures telling { KeepsTelling (F.shows files.old part) (F.shows files.new part) }
    ensures others { Only part (F.shows files.old) (F.shows files.new) }
{
    let mut bytes = Vec::new(alloc);
    let mut buf = [0u8; 4096];
    while bytes.len() < limit {
        let room = (limit - bytes.len()).min(4096);
        let n = files.read(part, &mut buf[..room])?;
        if n == 0 {
            return Ok(bytes);
        }
        bytes.extend_from_slice(&buf[..n])?;
    }
    Ok(bytes)
}

// Reads an input stream that is begun.
fn load_begun<F: Files>(alloc: Global, files: &mut F, part: Part, most: usize) -> Loaded
    requires begun { (F.shows files.old part).stage ≡ Begun }
    requires most { most + 1 < 2 ^ 64 }
    ensures given { (source : Source)
        → Gives (F.shows files.old part) (F.shows files.new part) source
        → LoadedIs most result source }
    ensures fault { FaultIs result (F.shows files.old part) (F.shows files.new part) }
    ensures few { IsFew most result }
    ensures most { TakesUpTo (most + 1) (F.shows files.old part) (F.shows files.new part) }
    ensures stops { StopsBehind most result (F.shows files.old part) (F.shows files.new part) }
    ensures name { (F.shows files.new part).name ≡ (F.shows files.old part).name }
    ensures telling { KeepsTelling (F.shows files.old part) (F.shows files.new part) }
    ensures others { Only part (F.shows files.old) (F.shows files.new) }
{
    match read_whole(alloc, files, part, most + 1) {
        Ok(bytes) => {
            if bytes.len() <= most {
                Loaded::Whole(bytes)
            } else {
                Loaded::TooLong
            }
        }
        Err(ReadError::Fault) => Loaded::Fault,
        Err(ReadError::Memory) => Loaded::Memory,
    }
}

/// Begins an input stream under its name and reads it whole, or one byte past the most bytes that it may have.
///
/// It never takes more: of an input stream that is too long, as of one over 16 MiB, one byte more than the most is
/// taken.
pub fn load<F: Files>(alloc: Global, files: &mut F, part: Part, name: &str, most: usize) -> Loaded
    requires fresh { (F.shows files.old part).stage ≡ Fresh }
    requires most { most + 1 < 2 ^ 64 }
    ensures given { (source : Source)
        → Gives (F.shows files.old part) (F.shows files.new part) source
        → LoadedIs most result source }
    ensures fault { FaultIs result (F.shows files.old part) (F.shows files.new part) }
    ensures few { IsFew most result }
    ensures most { TakesUpTo (most + 1) (F.shows files.old part) (F.shows files.new part) }
    ensures stops { StopsBehind most result (F.shows files.old part) (F.shows files.new part) }
    ensures name { IsNamed name.now (F.shows files.new part) }
    ensures telling { KeepsTelling (F.shows files.old part) (F.shows files.new part) }
    ensures others { Only part (F.shows files.old) (F.shows files.new) }
{
    if files.begin(part, name).is_err() {
        return Loaded::Fault;
    }
    load_begun(alloc, files, part, most)
}
