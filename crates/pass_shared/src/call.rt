//! What a call is made over.
use pass_hold::Whose;
use pass_outside::Gate;
use pass_slots::Locks;
use std::alloc::Global;

/// A call on a store: the locks that it takes, what it waits by, and what it takes memory from.
#[derive(Drop)]
pub(crate) struct Call<'a, 'g, R, J: Whose, G: Gate> {
    pub locks: &'a Locks<'g, J, G>,
    pub rt: &'a R,
    pub alloc: Global,
}
