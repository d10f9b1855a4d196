//! Writing all of the output.
ghost use Rattle.std.specs.Prelude.{◌≡◌, false, is_err, IfErr, OnOk};
ghost use Rattle.std.specs.Io.KnownBytes.{Appends};

use crate::device::ByteWriter;
use crate::fault::BenchFault;

/// Writes the bytes, one piece after another.
/// The writer must not have failed before, and is not called again after it failed; then the contract does not say
/// how much was written.
pub fn write_output<W: ByteWriter>(writer: &mut W, bytes: &[u8]) -> Result<(), BenchFault>
    requires { W.failed writer.old ≡ false }
    ensures err { IfErr result (λ f. f ≡ BenchFault.Write) }
    ensures failed { W.failed writer.new ≡ is_err result }
    ensures bytes { OnOk result (Appends (W.contents writer.old) (W.contents writer.new) bytes.now) }
{
    let mut rest = bytes;
    while !rest.is_empty() {
        let Ok(count) = writer.put(rest) else {
            return Err(BenchFault::Write);
        };
        let (_, left) = rest.split_at(count);
        rest = left;
    }
    Ok(())
}
