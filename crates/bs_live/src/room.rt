//! Room in a text buffer.
ghost use Rattle.std.specs.Prelude.{◌≡◌, ◌+◌, ◌≤◌, length, IfOk, OnOk};

use bs_json::TextBuffer;
use std::alloc::{AllocError, Global};

/// The room of a wider buffer for `len` bytes and `more`: twice the bytes at least.
fn wider_room(len: usize, more: usize) -> Result<usize, AllocError>
    ensures { IfOk result (λ room. len + more ≤ room) }
{
    let least = len.checked_add(more).ok_or(AllocError)?;
    Ok(least.max(len.saturating_mul(2)))
}

/// Makes room for `more` bytes after the stored ones. A buffer that grows doubles its room at
/// least. After an error the buffer is unchanged.
pub fn make_room(alloc: Global, text: &mut TextBuffer, more: usize) -> Result<(), AllocError>
    ensures bytes { OnOk result (text.new.bytes ≡ text.old.bytes) }
    ensures room { OnOk result (length text.new.bytes + more ≤ text.new.room) }
{
    if more <= text.left() {
        return Ok(());
    }
    let room = wider_room(text.as_slice().len(), more)?;
    let mut wider = TextBuffer::with_room(alloc, room)?;
    wider.push(text.as_slice());
    *text = wider;
    Ok(())
}
