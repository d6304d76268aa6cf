//! The words of a call: `[DIR] [--root FOLDER] [--waits-flow] [--loaders] [--fact NAME VALUE]..`.

use pass_strace::Waits;
use std::alloc::Global;

/// The word before the folder below which names are relative.
const ROOT: &str = "--root";

/// The word by which a process takes from a child for which it waited.
const WAITS_FLOW: &str = "--waits-flow";

/// The word by which the files of programs are read for what loads them.
const LOADERS: &str = "--loaders";

/// The word before an attribute of the run and its value.
const FACT: &str = "--fact";

/// An attribute of the run, and its value, as they were given.
#[derive(Drop)]
pub(crate) struct Pair {
    pub(crate) name: String,
    pub(crate) value: String,
}

// What the next word is.
#[derive(Drop)]
enum Next {
    Any,
    Root,
    FactName,
    FactValue(String),
}

#[derive(Drop)]
pub(crate) struct Words {
    store: Option<String>,
    root: Option<String>,
    pub(crate) waits: Waits,
    pub(crate) loaders: bool,
    pub(crate) pairs: Vec<Pair>,
}

impl Words {
    // None where there is another word, one too many or one too few, or memory is refused.
    pub(crate) fn of(alloc: Global, arguments: Vec<String>) -> Option<Words> {
        let mut words = Words {
            store: None,
            root: None,
            waits: Waits::Quiet,
            loaders: false,
            pairs: Vec::new(alloc),
        };
        let mut next = Next::Any;
        for argument in arguments {
            next = words.take(next, argument)?;
        }
        match next {
            Next::Any => Some(words),
            _ => None,
        }
    }

    // Takes a word, and tells what the one behind it is.
    fn take(&mut self, next: Next, argument: String) -> Option<Next> {
        match next {
            Next::Root => {
                self.root = Some(argument);
                Some(Next::Any)
            }
            Next::FactName => Some(Next::FactValue(argument)),
            Next::FactValue(name) => {
                let value = argument;
                self.pairs.push(Pair { name, value }).ok()?;
                Some(Next::Any)
            }
            Next::Any => self.take_any(argument),
        }
    }

    fn take_any(&mut self, argument: String) -> Option<Next> {
        let word = argument.as_str();
        if word == ROOT && self.root.is_none() {
            return Some(Next::Root);
        }
        if word == FACT {
            return Some(Next::FactName);
        }
        if word == WAITS_FLOW && self.waits == Waits::Quiet {
            self.waits = Waits::Flow;
            return Some(Next::Any);
        }
        if word == LOADERS && !self.loaders {
            self.loaders = true;
            return Some(Next::Any);
        }
        if self.store.is_none() && !word.starts_with("-") {
            self.store = Some(argument);
            return Some(Next::Any);
        }
        None
    }

    // The folder of the store for which the trace is.
    pub(crate) fn store(&self) -> Option<&str> {
        match &self.store {
            Some(store) => Some(store.as_str()),
            None => None,
        }
    }

    // The folder below which names are relative, without a slash at its end; no bytes where there is none.
    pub(crate) fn root(&self) -> &[u8] {
        match &self.root {
            Some(root) => match root.as_bytes() {
                [front @ .., b'/'] => front,
                whole => whole,
            },
            None => &[],
        }
    }
}
