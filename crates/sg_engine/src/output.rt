//! The output of a run.
ghost use Rattle.std.specs.Prelude.{◌≡◌, ◌<◌, false, IsTrue, OnErr, OnOk};
ghost use Rattle.sg_edge.specs.Sinks.{gain, GainsFront, SameBut};

use sg_edge::{Failed, Sinks, Stream, write_all};

/// The streams to which a run writes, and whether a write has failed. None follows one that has.
#[derive(Drop)]
pub struct Output<'o, O: Sinks> {
    pub sink: &'o mut O,
    pub broken: bool,
    ghost sound: { broken ≡ false → O.faults sink.now ≡ 0 },
    ghost failed: { IsTrue broken → 0 < O.faults sink.now },
}

impl<'o, O: Sinks> Output<'o, O> {
    /// Makes an output of streams to which no write has failed.
    pub fn new(sink: &'o mut O) -> Output<'o, O>
        requires { O.faults sink.now ≡ 0 }
        ensures now { result.sink.now ≡ sink.entry.now }
        ensures same { result.sink.ghost_name ≡ sink.entry.ghost_name }
    {
        Output {
            sink,
            broken: false,
        }
    }

    /// Appends a text to a stream. It fails without a write if one has failed before.
    pub fn append(&mut self, to: Stream, text: &[u8]) -> Result<(), Failed>
        ensures wrote { OnOk result (O.contents self.new.sink.now to
            ≡ gain (O.contents self.old.sink.now to) text.now) }
        ensures sound { OnOk result (O.faults self.new.sink.now ≡ O.faults self.old.sink.now) }
        ensures front { OnErr result (GainsFront text.now
            (O.contents self.old.sink.now to) (O.contents self.new.sink.now to)) }
        ensures failed { OnErr result (0 < O.faults self.new.sink.now) }
        ensures other { SameBut to (O.contents self.old.sink.now) (O.contents self.new.sink.now) }
        ensures same { self.new.sink.ghost_name ≡ self.old.sink.ghost_name }
    {
        if self.broken {
            return Err(Failed);
        }
        match write_all(self.sink, to, text) {
            Ok(()) => Ok(()),
            Err(Failed) => {
                self.broken = true;
                Err(Failed)
            }
        }
    }
}
