ghost use Rattle.std.specs.Prelude.{◌≡◌};
ghost use Rattle.grove_sorts.specs.Identifier.{longest};
ghost use Rattle.grove_sorts.specs.Spelled.{spelled_ctor};
ghost use Rattle.grove_sorts.specs.Version.{knows_ctor, knows_position};
ghost use Rattle.grove_sorts.specs.declared.version.Version.TheVariants.{One};

use crate::position::Position;
use crate::spelled::SpelledCtor;

/// A version of the text: version two knows all that version one knows, and more.
#[derive(Clone, Copy, Debug, PartialEq, Eq)]
pub enum Version {
    /// Identifiers of up to 32 bytes.
    One,
    /// Identifiers of up to 64 bytes, `let`, and sums.
    Two,
}

/// How many bytes an identifier of the version may have.
pub fn longest_identifier(version: Version) -> usize
    ensures { result ≡ longest version }
{
    match version {
        Version::One => 32,
        Version::Two => 64,
    }
}

// Whether the version has the constructor, with its identifier where it has one.
#[inline(always)]
pub(crate) fn knows_spelled(version: Version, ctor: &SpelledCtor) -> bool
    ensures { result ≡ knows_ctor version (spelled_ctor ctor.now) }
{
    match version {
        Version::One => is_of_version_one(ctor),
        Version::Two => true,
    }
}

#[inline(always)]
fn is_of_version_one(ctor: &SpelledCtor) -> bool
    ensures { result ≡ knows_ctor One (spelled_ctor ctor.now) }
{
    match ctor {
        SpelledCtor::Var(spelling) | SpelledCtor::PVar(spelling) => {
            spelling.len() <= longest_identifier(Version::One)
        }
        SpelledCtor::Plain(plain) => matches!(plain.row().first, Version::One),
        SpelledCtor::Num(_literal) => true,
    }
}

// Whether the version has the position.
pub(crate) fn knows_position(version: Version, position: Position) -> bool
    ensures { result ≡ knows_position version position }
{
    match version {
        Version::One => !matches!(
            position,
            Position::Def
                | Position::On
                | Position::LeftParam
                | Position::LeftBody
                | Position::RightParam
                | Position::RightBody
        ),
        Version::Two => true,
    }
}
