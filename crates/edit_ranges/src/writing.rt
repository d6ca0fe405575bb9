ghost use Rattle.std.specs.Prelude.{◌≡◌, ◌++◌, ◌∷◌, OnOk, OnErr};
ghost use Rattle.edit_text.specs.Line.{Extends};
ghost use Rattle.edit_ranges.specs.Text.{sign, last_text, range_line, summary_text};

use crate::name_range::NameRange;
use crate::told::Told;
use grove_names::{Name, write_name};
use text_parts::{NoMemory, write_number};

/// Appends the lines of ranges.
pub(crate) fn write_ranges(ranges: &[NameRange], out: &mut Vec<u8>) -> Result<(), NoMemory>
    ensures appended { OnOk result (out.new.items ≡ out.old.items ++ summary_text ranges.now) }
    ensures unchanged { OnErr result (out.new.items ≡ out.old.items) }
{
    let start = out.len();
    for range in ranges {
        if append_line(range, out).is_err() {
            out.truncate(start);
            return Err(NoMemory);
        }
    }
    Ok(())
}

// After an error the line may stand in part.
fn append_line(range: &NameRange, out: &mut Vec<u8>) -> Result<(), NoMemory>
    ensures appended { OnOk result (out.new.items ≡ out.old.items ++ range_line range.now) }
    ensures in_part { OnErr result (Extends out.old.items out.new.items) }
{
    let first = Name {
        author: range.author,
        counter: range.first,
    };
    out.push(sign(range.told))?;
    write_name(first, out)?;
    append_last(range.first, range.last, out)?;
    out.push(b'\n')?;
    Ok(())
}

fn append_last(first: u64, last: u64, out: &mut Vec<u8>) -> Result<(), NoMemory>
    ensures appended { OnOk result (out.new.items ≡ out.old.items ++ last_text first last) }
    ensures in_part { OnErr result (Extends out.old.items out.new.items) }
{
    if first != last {
        out.push(b'-')?;
        write_number(last, out)?;
    }
    Ok(())
}

// What the line of a range begins with.
fn sign(told: Told) -> u8
    ensures { result ≡ sign told }
{
    match told {
        Told::Named => b'+',
        Told::Deleted => b'-',
    }
}
