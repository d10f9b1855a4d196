//! Separators between the parts of a line.
ghost use Rattle.std.specs.Prelude.{◌≡◌, ◌++◌, OnOk};
ghost use Rattle.std.specs.String.{string_bytes};
ghost use Rattle.lw_x86.specs.inner.Separators.{separator};

use std::alloc::{AllocError, Allocator};

/// Writes the separator `between` before the part at this index of a line. Writes nothing before the first part.
pub(crate) fn write_separator<A: Allocator>(
    out: &mut String<A>,
    index: usize,
    between: &str,
) -> Result<(), AllocError>
    ensures { OnOk result (string_bytes out.new ≡ string_bytes out.old ++ separator index between.now) }
{
    if index == 0 {
        return Ok(());
    }
    out.push_str(between)
}
