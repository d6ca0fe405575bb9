ghost use Rattle.std.specs.Prelude.{◌≡◌, ◌++◌, OnOk, OnErr};
ghost use Rattle.edit_text.specs.Whole.{HasVersion, header, header_lines};

use grove_sorts::Version;
use text_parts::NoMemory;

// The line that a text of version two begins with.
const VERSION_TWO: &[u8] = b"grove 2\n";

/// The version of a text, and what stands behind the line that tells it. A text without that line, or in which no LF ends it, is of version one.
pub fn split_version(text: &[u8]) -> (Version, &[u8])
    ensures { HasVersion text.now result.0 result.1.now }
{
    match text.strip_prefix(VERSION_TWO) {
        Some(body) => (Version::Two, body),
        None => (Version::One, text),
    }
}

/// How many lines tell the version of a text: one in version two, and none in version one.
pub fn header_lines(version: Version) -> u64
    ensures { result ≡ header_lines version }
{
    match version {
        Version::One => 0,
        Version::Two => 1,
    }
}

/// Appends the line that tells the version: `grove 2` in version two, and nothing in version one.
pub fn write_version(version: Version, out: &mut Vec<u8>) -> Result<(), NoMemory>
    ensures appended { OnOk result (out.new.items ≡ out.old.items ++ header version) }
    ensures unchanged { OnErr result (out.new.items ≡ out.old.items) }
{
    match version {
        Version::One => Ok(()),
        Version::Two => Ok(out.extend_from_slice(VERSION_TWO)?),
    }
}
