//! The texts of types. A long type is printed over and over, as itself and within others, so texts of its parts are kept and copied.
ghost use Rattle.std.specs.Prelude.{◌≡◌, ◌++◌, if◌then◌else◌, IfOk, OnOk, OnErr};
ghost use Rattle.type_core.specs.Typ as typ;
ghost use Rattle.type_core.specs.Typ.{type_text};
ghost use Rattle.type_core.specs.TypeTable.{IsTypeOf, type_at};
ghost use Rattle.type_core.specs.TypeTexts.{Lengthens};

use crate::former::Former;
use crate::node::Node;
use crate::table::TypeTable;
use crate::type_id::TypeId;
use indexmap::IndexMap;
use seeded_hash::HashSeed;
use std::alloc::Global;
use std::marker::Model;
use text_parts::{NoMemory, write_short};

// The text of a type with so many levels is kept: such texts are short, and a printed type is made of few of them.
const KEPT_LEVELS: u8 = 4;

// Where a text stands among those that are kept.
#[derive(Clone, Copy)]
pub(crate) struct Place {
    pub(crate) start: usize,
    pub(crate) end: usize,
}

/// Writes the types of a table. It keeps texts of their parts, so that to write them again is to copy them.
#[derive(Drop)]
pub struct TypePrinter<'t> {
    types: &'t TypeTable,
    places: IndexMap<TypeId, Place, HashSeed>,
    texts: Vec<u8>,
}

impl<'t> Model for TypePrinter<'t> {
    ghost use Rattle.std.specs.Prelude.{List};
    ghost use Rattle.type_core.specs.Typ.{Typ};
    ghost use Rattle.std.specs.Coded.{coded_list};
    ghost use Rattle.type_core.specs.TypCode.{typ_code};

    ghost Value = { List Typ };

    ghost coded = { coded_list typ_code };

    ghost use Rattle.type_core.specs.TypeTexts.{AreKept};

    ghost view = { λ p. p.types.now };

    ghost invariant = { λ p. AreKept p.types.now p.places.entries p.texts.items };
}

impl<'t> TypePrinter<'t> {
    /// A printer of a table's types, which has kept no text yet.
    pub fn new(alloc: Global, types: &'t TypeTable) -> TypePrinter<'t>
        ensures { result ≡ types.now }
    {
        TypePrinter {
            types,
            places: IndexMap::with_hasher(alloc, types.seed()),
            texts: Vec::new(alloc),
        }
    }

    /// Appends the text of a type: `?`, `num`, `bool`, `(A->B)`, `(A*B)` or `(A+B)`. A type with parts below so many levels is `..`.
    pub fn write_type(&mut self, t: TypeId, levels: u8, out: &mut Vec<u8>) -> Result<(), NoMemory>
        requires { IsTypeOf self.old t }
        ensures written { OnOk result (out.new.items ≡ out.old.items ++ type_text levels (type_at self.old t)) }
        ensures unchanged { OnErr result (out.new.items ≡ out.old.items) }
        ensures same_types { self.new ≡ self.old }
    {
        let start = out.len();
        let written = self.append_type(t, levels, out);
        if written.is_err() {
            out.truncate(start);
        }
        written
    }

    // The same, but that a part of it is there where memory runs out.
    fn append_type(&mut self, t: TypeId, levels: u8, out: &mut Vec<u8>) -> Result<(), NoMemory>
        requires { IsTypeOf self.old t }
        ensures written { OnOk result (out.new.items ≡ out.old.items ++ type_text levels (type_at self.old t)) }
        ensures longer { Lengthens out.old.items out.new.items }
        ensures same_types { self.new ≡ self.old }
    {
        match self.types.node(t) {
            Node::Unknown => write_short(b"?", out)?,
            Node::Num => write_short(b"num", out)?,
            Node::Boolean => write_short(b"bool", out)?,
            Node::Pair(_, _, _) if levels == 0 => write_short(b"..", out)?,
            Node::Pair(former, first, second) => {
                if levels == KEPT_LEVELS && self.append_kept(t, out)? {
                    return Ok(());
                }
                let start = out.len();
                out.push(b'(')?;
                self.append_type(first, levels - 1, out)?;
                write_short(sign(former), out)?;
                self.append_type(second, levels - 1, out)?;
                out.push(b')')?;
                if levels == KEPT_LEVELS {
                    self.keep(t, &out[start..])?;
                }
            }
        }
        Ok(())
    }

    // Appends the text of a type with `KEPT_LEVELS` levels where it is kept, and says whether it is.
    fn append_kept(&self, t: TypeId, out: &mut Vec<u8>) -> Result<bool, NoMemory>
        ensures written { IfOk result (λ kept. out.new.items
            ≡ (if kept then out.old.items ++ type_text KEPT_LEVELS (type_at self.now t) else out.old.items)) }
        ensures unchanged { OnErr result (out.new.items ≡ out.old.items) }
    {
        let Some(place) = self.places.get(&t) else {
            return Ok(false);
        };
        out.extend_from_slice(&self.texts[place.start..place.end])?;
        Ok(true)
    }

    // Keeps the text of a type with `KEPT_LEVELS` levels.
    fn keep(&mut self, t: TypeId, text: &[u8]) -> Result<(), NoMemory>
        requires { text.now ≡ type_text KEPT_LEVELS (type_at self.old t) }
        ensures { self.new ≡ self.old }
    {
        let start = self.texts.len();
        self.texts.extend_from_slice(text)?;
        let end = self.texts.len();
        self.places.insert(t, Place { start, end })?;
        Ok(())
    }
}

// The sign between the parts.
fn sign(former: Former) -> &'static [u8]
    ensures { result.now ≡ typ.sign former }
{
    match former {
        Former::Arrow => b"->",
        Former::Product => b"*",
        Former::Sum => b"+",
    }
}
