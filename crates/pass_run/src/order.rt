//! In which order the calls of a trace are made.

/// In which order the calls of a trace are made.
#[derive(Clone, Copy, PartialEq, Eq)]
pub enum Order {
    /// By passes over the processes, which so many workers make.
    Passes { workers: u32 },
    /// Each where its line stands, or as soon behind it as it is ready.
    Lines,
}

/// How many workers there are.
pub(crate) fn workers_of(order: Order) -> u32 {
    match order {
        Order::Passes { workers } => workers,
        Order::Lines => 1,
    }
}
