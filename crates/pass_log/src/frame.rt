//! The bytes that the first write of a frame has.
ghost use Rattle.std.specs.Prelude.{◌≡◌, ◌<◌, ◌^◌, length, IfOk, IfErr};
ghost use Rattle.std.specs.List.{All};
ghost use Rattle.pass_entry.specs.Ranges.{IsInRange};
ghost use Rattle.pass_log.specs.Frames.{staged};
ghost use Rattle.pass_log.specs.Records.{spellings};

use crate::LogFault;
use pass_entry::Record;
use pass_num::put_u32;
use pass_record::encode;
use std::alloc::{AllocError, Global};

/// The bytes of records, one behind the other.
pub fn spell(alloc: Global, batch: &[Record]) -> Result<Vec<u8>, AllocError>
    requires { All IsInRange batch.now }
    ensures { IfOk result (λ v. v.items ≡ spellings batch.now) }
{
    let mut bytes = Vec::new(alloc);
    for one in batch {
        encode(one, &mut bytes)?;
    }
    Ok(bytes)
}

/// The bytes that the first write of a batch's frame has: a length, the records' bytes, and the closed gate behind them.
pub fn stage(alloc: Global, batch: &[Record]) -> Result<Vec<u8>, LogFault>
    requires in_range { All IsInRange batch.now }
    requires size { length (spellings batch.now) < 2 ^ 32 }
    ensures bytes { IfOk result (λ v. v.items ≡ staged (spellings batch.now)) }
    ensures err { IfErr result (λ e. e ≡ LogFault.NoMemory) }
{
    let bytes = spell(alloc, batch)?;
    let mut frame = Vec::new(alloc);
    put_u32(&mut frame, bytes.len() as u32)?;
    frame.extend_from_slice(&bytes)?;
    frame.push(0)?;
    Ok(frame)
}
