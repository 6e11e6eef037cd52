//! What a job came to.
use crate::case::Case;
use sg_edge::{Files, MemFiles, MemSinks, Part, Stage, Stream};

/// What a job has written, its exit status, the part at which a call failed, and how many bytes of the script are left.
#[derive(Drop)]
pub struct Done {
    out: MemSinks,
    pub status: u8,
    pub broken: Option<Part>,
    left: usize,
}

// Returns the part at which a call failed.
fn broken_part(files: &MemFiles) -> Option<Part> {
    [Part::Platform, Part::Deployment, Part::Script]
        .into_iter()
        .find(|part| files.stage(*part) == Stage::Broken)
}

impl Done {
    /// Returns what these show of a job that had this exit status.
    pub fn new(files: &MemFiles, out: MemSinks, status: u8) -> Done {
        Done {
            out,
            status,
            broken: broken_part(files),
            left: files.left(Part::Script).len(),
        }
    }

    /// Returns whether all of the case was written, with its status.
    pub fn is_whole(&self, case: &Case) -> bool {
        self.out.held(Stream::Out) == case.out.as_slice()
            && self.out.held(Stream::Err) == case.err.as_slice()
            && self.status == case.status
    }

    /// Returns whether prefixes of what the case writes were written, and of Err something only after all of Out.
    pub fn is_cut_off(&self, case: &Case) -> bool {
        let out = self.out.held(Stream::Out);
        let err = self.out.held(Stream::Err);
        case.out.starts_with(out)
            && case.err.starts_with(err)
            && (err.is_empty() || out.len() == case.out.len())
    }

    /// Returns whether the output says that the part couldn't be read, after a prefix of the lines of the case.
    pub fn tells_unread(&self, case: &Case, part: Part) -> bool {
        let err = match part {
            Part::Platform => "cannot read the platform\n",
            Part::Deployment => "cannot read the deployment\n",
            Part::Script => "cannot read the script\n",
        };
        self.status == 10
            && self.out.held(Stream::Err) == err.as_bytes()
            && case.out.starts_with(self.out.held(Stream::Out))
    }

    // Returns whether no more of the script was taken than the case allows: less than a piece more than is needed.
    fn is_frugal(&self, case: &Case) -> bool {
        let taken = case.script.len().saturating_sub(self.left);
        match case.need {
            Some(need) => taken <= need.saturating_add(4095),
            None => true,
        }
    }

    /// Returns what differs from the expected result of the case, if anything does.
    pub fn difference(&self, case: &Case) -> Option<&'static str> {
        if self.out.held(Stream::Out) != case.out.as_slice() {
            return Some("Out");
        }
        if self.out.held(Stream::Err) != case.err.as_slice() {
            return Some("Err");
        }
        if self.status != case.status {
            return Some("the status");
        }
        if case.meeting.counts() != (case.meeting.wanted, 0) {
            return Some("who met");
        }
        if !self.is_frugal(case) {
            return Some("how far the script was read");
        }
        None
    }
}
