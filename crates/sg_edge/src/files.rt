//! The three inputs.
ghost use Rattle.std.specs.Prelude.{◌≡◌, ◌<◌, ◌≤◌, length, take, None, IfOk, OnOk, OnErr};
ghost use Rattle.sg_edge.specs.declared.files.Part.{Part};
ghost use Rattle.sg_edge.specs.declared.files.Stage.TheVariants.{Fresh, Begun, Over};
ghost use Rattle.sg_edge.specs.Files.{PartView, Begins, Breaks, Takes, Only, NoneLeft};

/// An input stream.
#[derive(Clone, Copy)]
pub enum Part {
    Platform,
    Deployment,
    Script,
}

/// How far an input stream was read.
#[derive(Clone, Copy)]
pub enum Stage {
    /// It was not begun.
    Fresh,
    /// It is open, and its end was not met.
    Begun,
    /// Its end was met.
    Over,
    /// A call failed at it. No call of it follows.
    Broken,
}

/// A device did not do what it was asked.
#[derive(Clone, Copy)]
pub struct Failed;

/// The three input streams.
///
/// An implementation shows contracts four things of each input stream: its [`Stage`], the name under which it was
/// begun, the remaining bytes, and how many of its calls have failed. A device shows `None` in place of a name that it
/// doesn't keep and of bytes that nobody can know; contracts then speak of the rest alone. Each call changes its own
/// input stream and leaves the other two as they are.
///
/// The count of failures rises exactly in a call that returns `Failed`, so no caller can bring a failure about. An
/// implementation over real files can derive it from the stage: 1 if that is `Broken`, else 0.
pub trait Files {
    /// What each input stream shows.
    ghost shows: { Self → Part → PartView };

    /// Opens an input stream under a name that the device understands. It takes no byte.
    ///
    /// If that isn't possible the input stream is `Broken`, has no name, and its count has risen.
    fn begin(&mut self, part: Part, name: &str) -> Result<(), Failed>
        requires { (shows self.old part).stage ≡ Fresh }
        ensures begun { OnOk result (Begins name.now (shows self.old part) (shows self.new part)) }
        ensures failed { OnErr result (Breaks (shows self.old part) (shows self.new part)) }
        ensures others { Only part (shows self.old) (shows self.new) };

    /// Takes the first remaining bytes, as many as it likes, and puts them at the front of the buffer.
    ///
    /// Returns 0 at the end: no bytes remain, and the input stream is `Over`. A read that fails takes no byte, its
    /// input stream is `Broken`, and its count has risen.
    fn read(&mut self, part: Part, buf: &mut [u8]) -> Result<usize, Failed>
        requires begun { (shows self.old part).stage ≡ Begun }
        requires room { 0 < length buf.old }
        ensures count { IfOk result (λ n. n ≤ length buf.new) }
        ensures took { IfOk result
            (λ n. Takes (take n buf.new) (shows self.old part) (shows self.new part)) }
        ensures failed { OnErr result (Breaks (shows self.old part) (shows self.new part)) }
        ensures others { Only part (shows self.old) (shows self.new) };

    /// Returns the stage of an input stream.
    fn stage(&self, part: Part) -> Stage
        ensures { result ≡ (shows self.now part).stage };

    /// An input stream that isn't begun has no name.
    ghost unnamed: { (files : Self) (part : Part)
        → (shows files part).stage ≡ Fresh → (shows files part).name ≡ None };

    /// No bytes remain of an input stream that is `Over`, if its contents are known.
    ghost nothing_left: { (files : Self) (part : Part)
        → (shows files part).stage ≡ Over → NoneLeft (shows files part).left };
}
