//! A job, its texts, and its expected result.
ghost use Rattle.std.specs.Prelude.{◌≡◌, IfOk};
ghost use Rattle.sg_edge.specs.declared.files.Stage.TheVariants.{Fresh};
ghost use Rattle.sg_edge.specs.MemFiles.{mem_view};
ghost use Rattle.sg_edge.specs.MemSinks.{mem_faults};

use crate::crew::{Kind, Kinds, Meeting};
use crate::literal::{fill, push_actors, push_line, push_text, push_times, set_text};
use crate::texts::text_named;
use sg_base::Memory;
use sg_edge::{MemFiles, MemSinks, Part};
use std::alloc::Global;
use std::test::Fail;

/// A job with its command line, its three texts, and so many contexts; and what it writes, and its exit status.
pub struct Case {
    words: String,
    pub platform: Vec<u8>,
    pub deployment: Vec<u8>,
    pub script: Vec<u8>,
    pub kinds: Kinds,
    pub contexts: u32,
    pub meeting: Meeting,
    /// The number of the call of its parts that fails, and that of the write, from 1; 0 for none.
    pub failing_call: u64,
    pub failing_write: u64,
    /// The most bytes that a read gives, and that a write takes.
    pub gives: usize,
    pub takes: usize,
    pub out: Vec<u8>,
    pub err: Vec<u8>,
    pub status: u8,
    /// How many bytes of the script its fetches need, if that is compared.
    pub need: Option<usize>,
    /// How many calls of its parts it makes: of each the begin, a read of all bytes, and if the end is met another.
    pub calls: u64,
    /// How many writes it makes of lines that are written at once: one for each scheduling round and each time advance
    /// with lines, and those of its end.
    pub writes: u64,
}

// Gives a part its name, so that one that is begun under another fails.
fn named(alloc: Global, files: MemFiles, part: Part, name: &str) -> Result<MemFiles, Memory>
    requires { (part : Part) → (mem_view files part).stage ≡ Fresh }
    ensures { IfOk result (λ named. (part : Part) → (mem_view named part).stage ≡ Fresh) }
{
    let mut files = files;
    files.rename(alloc, part, name)?;
    Ok(files)
}

// A function of its own, so that a proof in which one is dropped doesn't go into its parts.
impl Drop for Case {
    fn drop(self) {
        let Case {
            words: _,
            platform: _,
            deployment: _,
            script: _,
            kinds: _,
            contexts: _,
            meeting: _,
            failing_call: _,
            failing_write: _,
            gives: _,
            takes: _,
            out: _,
            err: _,
            status: _,
            need: _,
            calls: _,
            writes: _,
        } = self;
    }
}

impl Case {
    /// Makes a replay of empty texts.
    pub fn new(alloc: Global) -> Result<Case, Memory> {
        Ok(Case {
            words: String::from_str(alloc, "simgrid_replay replay p d s")?,
            platform: Vec::new(alloc),
            deployment: Vec::new(alloc),
            script: Vec::new(alloc),
            kinds: Kinds::Both,
            contexts: 20,
            meeting: Meeting::new(alloc)?,
            failing_call: 0,
            failing_write: 0,
            gives: 4096,
            takes: 7,
            out: Vec::new(alloc),
            err: Vec::new(alloc),
            status: 0,
            need: None,
            calls: 0,
            writes: 0,
        })
    }

    /// Returns why the test fails if a job of this case had another result.
    pub fn failure(&self, alloc: Global, what: &str, number: u64) -> Fail {
        let words = self.words.as_str();
        match format!(in alloc; "{words}: {what} ({number})") {
            Ok(text) => Fail::new(text),
            Err(_) => Fail::new("no memory"),
        }
    }

    // Takes the platform of the first name, and the deployment of the second or of actors on these hosts.
    fn take_texts(&mut self, alloc: Global, names: &str) -> Result<(), Fail> {
        let (platform, deployment) = names.split_once(" ").unwrap_or((names, ""));
        set_text(alloc, &mut self.platform, text_named(platform))?;
        set_text(alloc, &mut self.deployment, text_named(deployment))?;
        if deployment.starts_with("h") {
            push_actors(alloc, &mut self.deployment, deployment)?;
        }
        Ok(())
    }

    // Takes a context pool of so many contexts of this kind.
    fn take_crew(&mut self, alloc: Global, crew: &str) -> Result<(), Fail> {
        let (kinds, contexts) = crew.split_once(" ").unwrap_or((crew, ""));
        self.kinds = match kinds {
            "plain" => Kinds::All(Kind::Plain),
            "tape" => Kinds::All(Kind::Tape),
            "both" => Kinds::Both,
            _ => return Err(Fail::new("no such crew")),
        };
        self.contexts = contexts.parse()?;
        self.meeting = Meeting::new(alloc)?;
        Ok(())
    }

    // Takes a context pool of so many contexts, of which so many wait for one another in this turn.
    fn take_meeting(&mut self, alloc: Global, meeting: &str) -> Result<(), Fail> {
        let (contexts, more) = meeting.split_once(" ").unwrap_or((meeting, ""));
        let (wanted, turn) = more.split_once(" ").unwrap_or((more, ""));
        self.kinds = Kinds::All(Kind::Meeter);
        self.contexts = contexts.parse()?;
        self.meeting = Meeting::new(alloc)?;
        self.meeting.wanted = wanted.parse()?;
        self.meeting.turn = turn.parse()?;
        Ok(())
    }

    /// Takes what a line of a table says: a key, and the text after it.
    pub fn take(&mut self, alloc: Global, key: &str, text: &str) -> Result<(), Fail> {
        match key {
            "job" => self.words = String::from_str(alloc, text)?,
            "over" => self.take_texts(alloc, text)?,
            "platform" => set_text(alloc, &mut self.platform, text)?,
            "with" => push_line(alloc, &mut self.platform, text)?,
            "deployment" => set_text(alloc, &mut self.deployment, text)?,
            "script" => push_line(alloc, &mut self.script, text)?,
            "unended" => push_text(alloc, &mut self.script, text)?,
            "lines" => push_times(&mut self.script, text)?,
            "long_platform" => fill(&mut self.platform, text)?,
            "long_line" => fill(&mut self.script, text)?,
            "crew" => self.take_crew(alloc, text)?,
            "meeting" => self.take_meeting(alloc, text)?,
            "failing_call" => self.failing_call = text.parse()?,
            "failing_write" => self.failing_write = text.parse()?,
            "out" => push_line(alloc, &mut self.out, text)?,
            "front" => push_text(alloc, &mut self.out, text)?,
            "err" => push_line(alloc, &mut self.err, text)?,
            "status" => self.status = text.parse()?,
            "need" => self.need = Some(text.parse()?),
            "calls" => self.calls = text.parse()?,
            "writes" => self.writes = text.parse()?,
            "--" => {}
            _ => return Err(Fail::new("no such key")),
        }
        Ok(())
    }

    /// Takes a line of a table that isn't the end of a case.
    pub fn take_line(&mut self, alloc: Global, line: &str) -> Result<(), Fail> {
        let (key, text) = line.split_once(" ").unwrap_or((line, ""));
        self.take(alloc, key, text)
    }

    /// Returns the words of the command line.
    pub fn command_line(&self, alloc: Global) -> Result<Vec<String>, Memory> {
        let mut words = Vec::new(alloc);
        for word in self.words.as_str().split_whitespace() {
            words.push(String::from_str(alloc, word)?)?;
        }
        Ok(words)
    }

    /// Returns the three parts.
    pub fn files(&self, alloc: Global) -> Result<MemFiles, Memory>
        ensures { IfOk result (λ files. (part : Part) → (mem_view files part).stage ≡ Fresh) }
    {
        let files = MemFiles::new(
            alloc,
            Some(&self.platform),
            Some(&self.deployment),
            Some(&self.script),
            &[self.failing_call],
        )?;
        let files = named(alloc, files, Part::Platform, "p")?;
        let files = named(alloc, files, Part::Deployment, "d")?;
        let mut files = named(alloc, files, Part::Script, "s")?;
        let gives = self.gives.max(1);
        files.pieces(Part::Platform, gives);
        files.pieces(Part::Deployment, gives);
        files.pieces(Part::Script, gives);
        Ok(files)
    }

    /// Returns the two streams.
    pub fn sinks(&self, alloc: Global) -> Result<MemSinks, Memory>
        ensures { IfOk result (λ out. mem_faults out ≡ 0) }
    {
        MemSinks::new(alloc, 4000, 4000, &[self.failing_write], self.takes.max(1))
    }
}
