//! The records that raise a ceiling.
ghost use Rattle.std.specs.Prelude.{◌≡◌, ◌<◌, IfOk};
ghost use Rattle.pass_plain.specs.Ceilings.{ceilings_between};

use pass_entry::{Pnode, Record};
use std::alloc::{AllocError, Global};

/// How far one record raises the ceiling at most.
pub const CEILING_STEP: u64 = 8_192;

/// The records that raise one ceiling to another: a step each, and last the other one.
pub fn ceilings_between(alloc: Global, from: Pnode, to: Pnode) -> Result<Vec<Record>, AllocError>
    requires { from < to }
    ensures { IfOk result (λ v. v.items ≡ ceilings_between from to) }
{
    let mut records = Vec::new(alloc);
    let mut ceiling = from.0;
    'steps: while to.0 - ceiling > CEILING_STEP {
        ceiling += CEILING_STEP;
        records.push(Record::Ceiling {
            pnode: Pnode(ceiling),
        })?;
    }
    records.push(Record::Ceiling { pnode: to })?;
    Ok(records)
}
