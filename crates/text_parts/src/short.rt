ghost use Rattle.std.specs.Prelude.{◌≡◌, ◌+◌, ◌≤◌, ◌++◌, length, vec_len, vec_capacity, OnOk, OnErr};

use crate::no_memory::NoMemory;

/// Appends a short text byte by byte, which takes less than a copy of it.
pub fn write_short(text: &[u8], out: &mut Vec<u8>) -> Result<(), NoMemory>
    ensures appended { OnOk result (out.new.items ≡ out.old.items ++ text.now) }
    ensures unchanged { OnErr result (out.new.items ≡ out.old.items) }
{
    out.reserve(text.len())?;
    put_short(text, out);
    Ok(())
}

// The same where there is room for it.
pub(crate) fn put_short(text: &[u8], out: &mut Vec<u8>)
    requires room { vec_len out.old + length text.now ≤ vec_capacity out.old }
    ensures written { out.new.items ≡ out.old.items ++ text.now }
    ensures len { vec_len out.new ≡ vec_len out.old + length text.now }
    ensures capacity { vec_capacity out.new ≡ vec_capacity out.old }
{
    // Most short texts have one byte or two, which need no loop.
    match text {
        [only] => out.push_reserved(*only),
        [first, second] => {
            out.push_reserved(*first);
            out.push_reserved(*second);
        }
        _ => {
            for byte in text {
                out.push_reserved(*byte);
            }
        }
    }
}
