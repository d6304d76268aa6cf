//! Calls of two processes that overlapped, so that the text doesn't tell which came first.

/// A call of a process: the lines where it began and ended.
#[derive(Clone, Copy)]
pub struct Touch {
    pub process: u32,
    pub begun: u64,
    pub ended: u64,
}

// The calls of two processes that ended last, the later one first.
#[derive(Clone, Copy)]
struct Latest {
    first: Option<Touch>,
    second: Option<Touch>,
}

// Which of two calls ended later.
fn later(before: Option<Touch>, touch: Touch) -> Option<Touch> {
    match before {
        Some(before) if touch.ended < before.ended => Some(before),
        _ => Some(touch),
    }
}

impl Latest {
    const NONE: Latest = Latest {
        first: None,
        second: None,
    };

    // Whether a call of another process had not ended when this one began.
    fn meets(&self, touch: Touch) -> bool {
        let meets = |before: Option<Touch>| {
            before.is_some_and(|before| before.process != touch.process
                && before.ended > touch.begun)
        };
        meets(self.first) || meets(self.second)
    }

    fn note(&mut self, touch: Touch) {
        match self.first {
            Some(first) if touch.ended <= first.ended => {
                if touch.process != first.process {
                    self.second = later(self.second, touch);
                }
            }
            first => {
                if first.is_some_and(|first| first.process != touch.process) {
                    self.second = first;
                }
                self.first = Some(touch);
            }
        }
    }
}

/// The last calls on one thing: those that changed it, and those that only used it.
#[derive(Clone, Copy)]
pub struct Touches {
    changes: Latest,
    uses: Latest,
}

impl Touches {
    pub(crate) const NONE: Touches = Touches {
        changes: Latest::NONE,
        uses: Latest::NONE,
    };

    /// Notes a call. Whether another process's overlapped with it, so that one of the two changed the thing.
    pub fn note(&mut self, touch: Touch, changes: bool) -> bool {
        let meets = self.changes.meets(touch) || (changes && self.uses.meets(touch));
        if changes {
            self.changes.note(touch);
        } else {
            self.uses.note(touch);
        }
        meets
    }
}
