//! By which program a system loads another one: the path in an ELF file's header of type PT_INTERP.
//!
//! `loader_of` answers exactly by the definition (`specs/Elf`): for all bytes, whatever they claim of themselves.
#![tactic(auto)]

mod elf;

pub use elf::{Found, loader_of};
