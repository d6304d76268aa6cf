//! Whether the log of a store bears the leaves of an archive out.
//!
//! `audit` judges each leaf by the log as its version ended (`judged`): the log has no such version of a file, or the content hasn't
//! the size and the digests that the log gives it. It goes through the log once, beside the leaves. Of a content it looks at the blocks
//! alone whose bytes or digests may have changed since its file's last leaf. `audit_text` names the leaves that aren't borne out, and
//! counts.
#![tactic(auto)]

mod auditing;
mod borne;
mod course;
mod doubts;
mod state;
mod steps;
mod text;
mod verdict;

pub use auditing::audit;
pub use text::audit_text;
pub use verdict::{Judged, Verdict};
