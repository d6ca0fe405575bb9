ghost use Rattle.std.specs.Prelude.{◌≡◌, ◌≢◌, ◌↔◌, ◌++◌, ℕ, List, IsErr, IfOk, IfSome, IfNone};
ghost use Rattle.std.specs.List.{list_all};
ghost use Rattle.grove_sorts.specs.Identifier.{is_inner_byte, is_identifier, IsIdentifier};
ghost use Rattle.grove_sorts.specs.Ident.{ident_bytes};
ghost use Rattle.grove_sorts.specs.Ctor.{InRange, IsPlain, ctor_text};
ghost use Rattle.grove_sorts.specs.declared.ctor.Ctor.{Ctor};
ghost use Rattle.grove_sorts.specs.declared.plain.Plain.{Plain};
ghost use Rattle.grove_sorts.specs.Plain.{plain_ctor};
ghost use Rattle.grove_sorts.specs.Spelled.{spelled_ctor, spelled_ident};
ghost use Rattle.grove_sorts.specs.Position.{position_text};
ghost use Rattle.grove_sorts.specs.declared.position.Position.{Position};
ghost use Rattle.grove_sorts.specs.Version.{IsCtorOf, IsPositionOf};

use crate::ctor::Ctor;
use crate::ident::{Ident, IdentFault};
use crate::plain::Plain;
use crate::position::Position;
use crate::spelled::{SpelledCtor, Spelling};
use crate::version::{Version, knows_position, knows_spelled, longest_identifier};
use text_parts::read_number;

/// Reads an identifier of the version: a lower-case letter, then lower-case letters, digits and underscores, up to 32 bytes in version one and up to 64 in version two.
pub fn read_ident(version: Version, bytes: &[u8]) -> Result<Ident, IdentFault>
    ensures fault { IsErr result ↔ ¬ IsIdentifier version bytes.now }
    ensures found { IfOk result (λ ident. ident_bytes ident ≡ bytes.now) }
{
    if !is_identifier(version, bytes) {
        return Err(IdentFault::NotAnIdent);
    }
    Ok(Ident::new(bytes))
}

fn is_identifier(version: Version, bytes: &[u8]) -> bool
    ensures { result ≡ is_identifier version bytes.now }
{
    match bytes {
        [] => false,
        [first, rest @ ..] => first.is_ascii_lowercase()
            && are_inner_bytes(rest)
            && rest.len() < longest_identifier(version),
    }
}

fn are_inner_bytes(bytes: &[u8]) -> bool
    ensures { result ≡ list_all is_inner_byte bytes.now }
{
    bytes.iter().all(|byte| is_inner_byte(*byte))
}

fn is_inner_byte(byte: u8) -> bool
    ensures { result ≡ is_inner_byte byte }
{
    byte.is_ascii_lowercase() || byte.is_ascii_digit() || byte == b'_'
}

/// Reads the text of a constructor of the version.
pub fn read_ctor(version: Version, bytes: &[u8]) -> Option<Ctor>
    ensures found { IfSome result (λ ctor. bytes.now ≡ ctor_text ctor) }
    ensures in_range { IfSome result InRange }
    ensures of_version { IfSome result (IsCtorOf version) }
    ensures none { IfNone result ((ctor : Ctor) → InRange ctor → IsCtorOf version ctor → bytes.now ≢ ctor_text ctor) }
{
    let spelled = read_spelled(version, bytes)?;
    Some(spelled.ctor())
}

/// Reads the text of a constructor of the version, and leaves its identifier where it stands.
#[inline(always)]
pub fn read_spelled(version: Version, bytes: &[u8]) -> Option<SpelledCtor<'_>>
    ensures found { IfSome result (λ spelled. bytes.now ≡ ctor_text (spelled_ctor spelled)) }
    ensures in_range { IfSome result (λ spelled. InRange (spelled_ctor spelled)) }
    ensures of_version { IfSome result (λ spelled. IsCtorOf version (spelled_ctor spelled)) }
    ensures none { IfNone result ((ctor : Ctor) → InRange ctor → IsCtorOf version ctor → bytes.now ≢ ctor_text ctor) }
{
    let spelled = read_any_ctor(bytes)?;
    if knows_spelled(version, &spelled) {
        Some(spelled)
    } else {
        None
    }
}

#[inline(always)]
fn read_any_ctor(bytes: &[u8]) -> Option<SpelledCtor<'_>>
    ensures found { IfSome result (λ spelled. bytes.now ≡ ctor_text (spelled_ctor spelled)) }
    ensures in_range { IfSome result (λ spelled. InRange (spelled_ctor spelled)) }
    ensures none { IfNone result ((ctor : Ctor) → InRange ctor → bytes.now ≢ ctor_text ctor) }
{
    match bytes {
        [b'v', b'a', b'r', b':', name @ ..] => Some(SpelledCtor::Var(read_spelling(name)?)),
        [b'p', b'v', b'a', b'r', b':', name @ ..] => Some(SpelledCtor::PVar(read_spelling(name)?)),
        [b'n', b'u', b'm', b':', digits @ ..] => Some(SpelledCtor::Num(read_number(digits)?)),
        _ => read_plain_ctor(bytes),
    }
}

// Reads an identifier of any version.
fn read_spelling(bytes: &[u8]) -> Option<Spelling<'_>>
    ensures found { IfSome result (λ spelling. ident_bytes (spelled_ident spelling) ≡ bytes.now) }
    ensures none { IfNone result (¬ IsIdentifier Version.Two bytes.now) }
{
    if is_identifier(Version::Two, bytes) {
        Some(Spelling::new(bytes))
    } else {
        None
    }
}

#[inline(always)]
fn read_plain_ctor(bytes: &[u8]) -> Option<SpelledCtor<'static>>
    ensures found { IfSome result (λ spelled. bytes.now ≡ ctor_text (spelled_ctor spelled)) }
    ensures plain { IfSome result (λ spelled. IsPlain (spelled_ctor spelled)) }
    ensures none { IfNone result ((ctor : Ctor) → IsPlain ctor → bytes.now ≢ ctor_text ctor) }
{
    let plain = Plain::named(bytes)?;
    Some(SpelledCtor::Plain(plain))
}

/// Reads the word of a position of the version.
#[inline(always)]
pub fn read_position(version: Version, bytes: &[u8]) -> Option<Position>
    ensures found { IfSome result (λ position. bytes.now ≡ position_text position) }
    ensures of_version { IfSome result (IsPositionOf version) }
    ensures none { IfNone result ((position : Position) → IsPositionOf version position → bytes.now ≢ position_text position) }
{
    let position = read_any_position(bytes)?;
    knows_position(version, position).then_some(position)
}

fn read_any_position(bytes: &[u8]) -> Option<Position>
    ensures found { IfSome result (λ position. bytes.now ≡ position_text position) }
    ensures none { IfNone result ((position : Position) → bytes.now ≢ position_text position) }
{
    match bytes {
        b"main" => Some(Position::Main),
        b"param" => Some(Position::Param),
        b"type" => Some(Position::Annot),
        b"def" => Some(Position::Def),
        b"body" => Some(Position::Body),
        b"fun" => Some(Position::Fun),
        b"arg" => Some(Position::Arg),
        b"left" => Some(Position::Left),
        b"right" => Some(Position::Right),
        b"cond" => Some(Position::Test),
        b"then" => Some(Position::WhenTrue),
        b"else" => Some(Position::WhenFalse),
        b"first" => Some(Position::First),
        b"second" => Some(Position::Second),
        b"of" => Some(Position::Operand),
        b"from" => Some(Position::Dom),
        b"to" => Some(Position::Cod),
        b"on" => Some(Position::On),
        b"lparam" => Some(Position::LeftParam),
        b"lbody" => Some(Position::LeftBody),
        b"rparam" => Some(Position::RightParam),
        b"rbody" => Some(Position::RightBody),
        _ => None,
    }
}
