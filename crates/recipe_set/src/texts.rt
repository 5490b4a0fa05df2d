//! Texts put together.
ghost use Rattle.std.specs.Prelude.{◌≡◌, ◌++◌, IfOk};

use br_path::{Bytes, Memory};
use std::alloc::Global;

/// A text between two others.
pub(crate) fn joined(
    alloc: Global,
    front: &[u8],
    text: &Bytes,
    back: &[u8],
) -> Result<Bytes, Memory>
    ensures { IfOk result (λ bytes. bytes ≡ front.now ++ text.now ++ back.now) }
{
    let mut items = Vec::from_slice(alloc, front)?;
    items.extend_from_slice(text.as_slice())?;
    items.extend_from_slice(back)?;
    Ok(Bytes { items })
}
