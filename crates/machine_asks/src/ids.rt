//! Lists of ids.
ghost use Rattle.std.specs.Prelude.{◌≡◌, ◌∷◌, [], IfOk};

use std::alloc::Global;
use tail_base::{Items, NoMemory};

/// The list of one id.
pub(crate) fn one_id(alloc: Global, id: u32) -> Result<Items<u32>, NoMemory>
    ensures value { IfOk result (λ ids. ids ≡ id ∷ []) }
{
    let mut ids = Items::new(alloc);
    ids.push(id)?;
    Ok(ids)
}
