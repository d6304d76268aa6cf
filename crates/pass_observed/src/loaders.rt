//! The programs that load other programs, which no call tells.

use std::alloc::{AllocError, Global};
use std::collections::BTreeMap;

/// By what a system loads a program.
#[derive(Drop)]
pub enum Loader {
    /// A file, by its path.
    Named(Vec<u8>),
    /// By itself.
    Nothing,
    /// That can't be found out any more.
    Unknown,
}

/// The loaders of programs, by the paths of these.
#[derive(Drop)]
pub struct Loaders {
    found: BTreeMap<Vec<u8>, Loader>,
}

impl Loaders {
    /// Nothing is known of any program.
    pub fn none(alloc: Global) -> Loaders {
        Loaders {
            found: BTreeMap::new(alloc),
        }
    }

    pub fn set(&mut self, program: Vec<u8>, loader: Loader) -> Result<(), AllocError> {
        self.found.insert(program, loader)?;
        Ok(())
    }

    /// The loader of a program that was looked at.
    pub fn of(&self, program: &[u8]) -> Option<&Loader> {
        self.found.get(program)
    }
}
