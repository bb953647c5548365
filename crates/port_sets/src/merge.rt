//! Ranges joined.
ghost use Rattle.std.specs.Prelude.{◌≡◌, IfOk};
ghost use Rattle.port_sets.specs.Ranges.{inserted};

use crate::range::PortRange;
use std::alloc::{AllocError, Global};

/// The ranges with one more, which is joined with those that it overlaps or touches.
pub(crate) fn inserted(
    alloc: Global,
    range: PortRange,
    ranges: &[PortRange],
) -> Result<Vec<PortRange>, AllocError>
    ensures value { IfOk result (λ v. v.items ≡ inserted range ranges.now) }
{
    let mut out = Vec::new(alloc);
    let mut range = range;
    for other in ranges {
        if other.is_before(&range) {
            out.push(*other)?;
        } else if range.is_before(other) {
            out.push(range)?;
            range = *other;
        } else {
            range = range.joined(other);
        }
    }
    out.push(range)?;
    Ok(out)
}
