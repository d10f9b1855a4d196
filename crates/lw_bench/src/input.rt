//! Reading all input, up to one byte more than a text may have.
ghost use Rattle.std.specs.Prelude.{◌≡◌, ◌<◌, false, if◌then◌else◌, length, IfOk, IfErr, OnOk, OnErr};
ghost use Rattle.lw_bench.specs.Limits.{most_read_bytes};
ghost use Rattle.lw_bench.specs.Devices.{IsInput, TakesInput, TakesSome, ReadsMore, LosesInput};

use crate::device::ByteReader;
use crate::fault::BenchFault;
use lw_base::MAX_TEXT_BYTES;
use std::alloc::Allocator;

/// The number of bytes after which reading ends: one more than a text may have.
const MAX_READ_BYTES: usize = MAX_TEXT_BYTES + 1;

/// The number of bytes that are requested at once.
const CHUNK: usize = 1024;

/// Reads to the end of the input, or up to 65,537 bytes, one more than a text may have: so a text that is too long is
/// recognized without its rest. Fails with `Read` if the reader fails, and with `Memory` if memory runs out.
/// The reader must not have failed before, and is not called again after it failed.
pub fn read_input<R: ByteReader, A: Allocator>(
    alloc: A,
    reader: &mut R,
) -> Result<Vec<u8, A>, BenchFault>
    requires { R.failed reader.old ≡ false }
    ensures bytes { IfOk result (λ bytes. IsInput (R.remaining reader.old) bytes.items) }
    ensures taken { OnOk result (TakesInput (R.remaining reader.old) (R.remaining reader.new)) }
    ensures left { OnErr result (TakesSome (R.remaining reader.old) (R.remaining reader.new)) }
    ensures failed { OnOk result (R.failed reader.new ≡ false) }
    ensures err { IfErr result (λ f. f ≡ (if R.failed reader.new then BenchFault.Read else BenchFault.Memory)) }
{
    let mut bytes = Vec::new(alloc);
    while bytes.len() < MAX_READ_BYTES {
        if pull_chunk(reader, &mut bytes)? == 0 {
            return Ok(bytes);
        }
    }
    Ok(bytes)
}

/// Appends the next bytes to `bytes`, at most as many as may still be read, and returns their number, which is 0 only at the
/// end of the input. If memory runs out, the bytes that were pulled are lost.
fn pull_chunk<R: ByteReader, A: Allocator>(
    reader: &mut R,
    bytes: &mut Vec<u8, A>,
) -> Result<usize, BenchFault>
    requires working { R.failed reader.old ≡ false }
    requires room { length bytes.old.items < most_read_bytes }
    ensures bytes { IfOk result
        (ReadsMore (R.remaining reader.old) (R.remaining reader.new) bytes.old.items bytes.new.items) }
    ensures lost { OnErr result (LosesInput (R.remaining reader.old) (R.remaining reader.new) bytes.old.items) }
    ensures failed { OnOk result (R.failed reader.new ≡ false) }
    ensures err { IfErr result (λ f. f ≡ (if R.failed reader.new then BenchFault.Read else BenchFault.Memory)) }
{
    let mut chunk = [0; CHUNK];
    let room = CHUNK.min(MAX_READ_BYTES - bytes.len());
    let Ok(count) = reader.pull(&mut chunk[..room]) else {
        return Err(BenchFault::Read);
    };
    bytes.extend_from_slice(&chunk[..count])?;
    Ok(count)
}
