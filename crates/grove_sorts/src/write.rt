ghost use Rattle.std.specs.Prelude.{◌≡◌, ◌++◌, OnOk, OnErr};
ghost use Rattle.grove_sorts.specs.Ident.{ident_bytes};
ghost use Rattle.grove_sorts.specs.Ctor.{InRange, ctor_text, keyword, payload_text};
ghost use Rattle.grove_sorts.specs.Position.{position_text};
ghost use Rattle.grove_sorts.specs.Sort.{sort_text};

use crate::ctor::Ctor;
use crate::ident::Ident;
use crate::plain::Plain;
use crate::position::Position;
use crate::sort::Sort;
use text_parts::{NoMemory, write_number, write_short};

/// Appends an identifier.
pub fn write_ident(ident: &Ident, out: &mut Vec<u8>) -> Result<(), NoMemory>
    ensures appended { OnOk result (out.new.items ≡ out.old.items ++ ident_bytes ident.now) }
    ensures unchanged { OnErr result (out.new.items ≡ out.old.items) }
{
    out.extend_from_slice(ident.as_slice())?;
    Ok(())
}

/// Appends the text of a constructor.
pub fn write_ctor(ctor: &Ctor, out: &mut Vec<u8>) -> Result<(), NoMemory>
    ensures in_range { OnOk result (InRange ctor.now) }
    ensures appended { OnOk result (out.new.items ≡ out.old.items ++ ctor_text ctor.now) }
    ensures unchanged { OnErr result (out.new.items ≡ out.old.items) }
{
    let start = out.len();
    write_short(keyword(ctor), out)?;
    if let Err(error) = write_payload(ctor, out) {
        out.truncate(start);
        return Err(error);
    }
    Ok(())
}

fn write_payload(ctor: &Ctor, out: &mut Vec<u8>) -> Result<(), NoMemory>
    ensures in_range { OnOk result (InRange ctor.now) }
    ensures appended { OnOk result (out.new.items ≡ out.old.items ++ payload_text ctor.now) }
    ensures unchanged { OnErr result (out.new.items ≡ out.old.items) }
{
    match ctor {
        Ctor::Var(ident) | Ctor::PVar(ident) => write_ident(ident, out),
        Ctor::Num(number) => Ok(write_number(*number, out)?),
        _ => Ok(()),
    }
}

/// Appends the word of a position.
pub fn write_position(position: Position, out: &mut Vec<u8>) -> Result<(), NoMemory>
    ensures appended { OnOk result (out.new.items ≡ out.old.items ++ position_text position) }
    ensures unchanged { OnErr result (out.new.items ≡ out.old.items) }
{
    Ok(write_short(position_word(position), out)?)
}

/// Appends the word of a sort.
pub fn write_sort(sort: Sort, out: &mut Vec<u8>) -> Result<(), NoMemory>
    ensures appended { OnOk result (out.new.items ≡ out.old.items ++ sort_text sort) }
    ensures unchanged { OnErr result (out.new.items ≡ out.old.items) }
{
    Ok(write_short(sort_word(sort), out)?)
}

/// The word that a constructor's text begins with: all of it, where the constructor is plain.
pub fn keyword(ctor: &Ctor) -> &'static [u8]
    ensures { result.now ≡ keyword ctor.now }
{
    match ctor {
        Ctor::Var(_) => b"var:",
        Ctor::Num(_) => b"num:",
        Ctor::PVar(_) => b"pvar:",
        _ => Plain::known(ctor).row().word,
    }
}

/// The word of a position.
pub fn position_word(position: Position) -> &'static [u8]
    ensures { result.now ≡ position_text position }
{
    match position {
        Position::Main => b"main",
        Position::Param => b"param",
        Position::Annot => b"type",
        Position::Def => b"def",
        Position::Body => b"body",
        Position::Fun => b"fun",
        Position::Arg => b"arg",
        Position::Left => b"left",
        Position::Right => b"right",
        Position::Test => b"cond",
        Position::WhenTrue => b"then",
        Position::WhenFalse => b"else",
        Position::First => b"first",
        Position::Second => b"second",
        Position::Operand => b"of",
        Position::Dom => b"from",
        Position::Cod => b"to",
        Position::On => b"on",
        Position::LeftParam => b"lparam",
        Position::LeftBody => b"lbody",
        Position::RightParam => b"rparam",
        Position::RightBody => b"rbody",
    }
}

fn sort_word(sort: Sort) -> &'static [u8]
    ensures { result.now ≡ sort_text sort }
{
    match sort {
        Sort::Top => b"top",
        Sort::Exp => b"exp",
        Sort::Pat => b"pat",
        Sort::Typ => b"typ",
    }
}
