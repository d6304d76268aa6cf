//! What the text as a whole tells of a run, before its calls are taken one after the other.

use crate::devices::outside;
use crate::paths::joined;
use pass_syscall::{
    Base, LineFault, Parts, Stage, Step, StraceFault, name_of_call, split_call, unescaped,
};
use std::alloc::Global;
use std::collections::BTreeSet;

#[derive(Drop)]
pub struct Survey {
    /// The absolute path of where the run began, or no bytes where no call tells it.
    pub base: Vec<u8>,
    /// The paths of the FIFOs.
    pub fifos: BTreeSet<Vec<u8>>,
    /// Some descriptor has its path beside it.
    pub has_paths: bool,
    /// No process has changed its folder yet.
    stays: bool,
}

// Whether a call may tell of a FIFO, or of where its process stands.
fn tells(name: &[u8], front: &[u8], rest: &[u8]) -> bool {
    let names = [
        b"mknod".as_slice(),
        b"mknodat".as_slice(),
        b"stat".as_slice(),
        b"lstat".as_slice(),
        b"fstat".as_slice(),
        b"newfstatat".as_slice(),
        b"statx".as_slice(),
    ];
    let shows = |text: &[u8]| {
        text.split(|byte| matches!(*byte, b'=' | b'|' | b' ' | b','))
            .any(|word| word == b"S_IFIFO".as_slice())
    };
    names.iter().any(|known| *known == name) && (shows(front) || shows(rest))
}

// Whether a descriptor, or a folder, has its path beside it.
fn has_path(text: &[u8]) -> bool {
    text.split(|byte| *byte == b'<')
        .any(|said| said.starts_with(b"\\x2f"))
}

impl Survey {
    pub fn of(alloc: Global, steps: &[Step<'_>]) -> Result<Survey, StraceFault> {
        let mut survey = Survey {
            base: Vec::new(alloc),
            fifos: BTreeSet::new(alloc),
            has_paths: false,
            stays: true,
        };
        for step in steps {
            if step.stage == Stage::Answered {
                if let Err(fault) = survey.take(alloc, step) {
                    return Err(fault.at_line(step.place));
                }
            }
        }
        Ok(survey)
    }

    fn take(&mut self, alloc: Global, step: &Step<'_>) -> Result<(), LineFault> {
        self.has_paths = self.has_paths || has_path(step.front) || has_path(step.rest);
        let Some(name) = name_of_call(step.front) else {
            return Ok(());
        };
        let seeks_base = self.stays && self.base.is_empty();
        if !seeks_base && !tells(name, step.front, step.rest) {
            return Ok(());
        }
        let mut text = Vec::from_slice(alloc, step.front)?;
        text.extend_from_slice(step.rest)?;
        let parts = split_call(alloc, &text)?;
        if seeks_base {
            self.take_base(alloc, &parts)?;
        }
        if parts.is_answered() && tells(name, step.front, step.rest) {
            self.take_fifo(alloc, &parts)?;
        }
        Ok(())
    }

    // Where the run began is told by the first call that names its folder, as long as none has changed that.
    fn take_base(&mut self, alloc: Global, parts: &Parts<'_>) -> Result<(), LineFault> {
        if parts.name == b"chdir".as_slice() || parts.name == b"fchdir".as_slice() {
            self.stays = !parts.is_answered();
        }
        if parts.name == b"getcwd".as_slice() && parts.is_answered() {
            self.base = parts.bytes(alloc, 0)?;
        }
        if let Some(said) = parts.word(0).strip_prefix(b"AT_FDCWD<") {
            if let Some(said) = said.strip_suffix(b">") {
                self.base = unescaped(alloc, said)?;
            }
        }
        Ok(())
    }

    // The FIFO that a call made, or looked at by its name or by a descriptor.
    fn take_fifo(&mut self, alloc: Global, parts: &Parts<'_>) -> Result<(), LineFault> {
        let is_by_fd = parts.name == b"fstat".as_slice();
        let is_below = parts.name.ends_with(b"at")
            && !is_by_fd
            && parts.name != b"stat".as_slice()
            && parts.name != b"lstat".as_slice()
            || parts.name == b"statx".as_slice();
        let place = usize::from(is_below);
        let name = if is_by_fd {
            Vec::new(alloc)
        } else {
            parts.bytes(alloc, place)?
        };
        let folder = if is_by_fd {
            parts.fd(0)?.path
        } else {
            match parts.base(place, is_below)? {
                Base::Own(said) => said,
                Base::Held(fd) => fd.path,
            }
        };
        let folder = match folder {
            Some(said) => unescaped(alloc, said)?,
            None if name.is_empty() => return Ok(()),
            None => self.base.clone()?,
        };
        let path = joined(alloc, &folder, &name)?;
        if !path.is_empty() && !path.starts_with(b"pipe:") && outside(&path).is_none() {
            self.fifos.insert(path)?;
        }
        Ok(())
    }
}
