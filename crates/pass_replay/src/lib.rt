//! The run of a trace on several threads, seen from its end: the history of the store is replayed entry by entry, and each is the next
//! step of the process that made it.
//!
//! A process of a run knows what it has seen and made by itself, and nothing of the others. Let each have made the next step of its
//! lines, entry by entry; let its children take part; and let the whole history go on from what each has seen by no entry of its
//! own. Then that history is a run of the trace (`runs`: `run`). No process is open where all have made their exit (`done`). The
//! run is stuck where all living processes have seen as much and wait, and none that has ended has seen more (`stuck`). No fork of
//! a run is refused, and where the places of the trace were reserved, no line's call finds too few (`rooms`). A session that counts
//! its trace's lines has room, and who has begun stays begun (`starts`).
//!
//! A *replay* makes the calls of a trace in the order of its text, as far as they are ready. Two beginnings of the replay agree
//! (`orders`: `agree`), so there is one whole replay at most (`one`). No call is due exactly where no process can move (`still`). A run
//! that keeps to the order of the text is the replay (`in_line`). Calls that are tried in that order make a replay (`tries`).
#![tactic(auto)]

pub mod laws;
