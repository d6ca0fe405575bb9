ghost use Rattle.std.specs.Prelude.{◌≡◌, ◌≢◌, ◌++◌, ◌<◌, ◌⊎◌, length, drop};
ghost use Rattle.grove_c.specs.declared.code.TheConstants.{DONE, NO_ROOM};

use crate::code::{DONE, NO_ROOM};

/// Copies a text to the front of the caller's room, and writes its length. Where the room is too short only the length is written.
pub(crate) fn copy_text(text: &[u8], room: &mut [u8], text_length: &mut usize) -> u32
    ensures length { text_length.new ≡ length text.now }
    ensures copied { result ≡ DONE → room.new ≡ text.now ++ drop (length text.now) room.old }
    ensures too_short { result ≡ NO_ROOM → length room.old < length text.now }
    ensures untouched { result ≢ DONE → room.new ≡ room.old }
    ensures codes { (result ≡ DONE) ⊎ (result ≡ NO_ROOM) }
{
    *text_length = text.len();
    if room.len() < text.len() {
        return NO_ROOM;
    }
    room[..text.len()].copy_from_slice(text);
    DONE
}
