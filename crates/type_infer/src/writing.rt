//! The texts of terms. What is still to be written of a term waits on a stack, so that a deep term needs no deep calls.
ghost use Rattle.std.specs.Prelude.{◌≡◌, ◌+◌, ◌<◌, ◌∷◌, [], ◌++◌, length, codes, OnOk, OnErr};
ghost use Rattle.type_core.specs.Typ as typ;
ghost use Rattle.type_core.specs.Typ.{type_text};
ghost use Rattle.type_infer.specs.Terms.{shown, term_at};
ghost use Rattle.type_infer.specs.Nodes.{kept_at, terms_of, AreNodes};
ghost use Rattle.type_infer.specs.Writing.{piece_text, pieces_text, piece_size, pieces_size, IsPieceOf, ArePieces, Lengthens};

use crate::node::Node;
use crate::solution::Solution;
use std::alloc::Global;
use text_parts::{NoMemory, write_short};
use type_core::Former;

// A piece of a text.
#[derive(Clone, Copy, Debug)]
pub(crate) enum Piece {
    // The term with this number, down to so many levels of parts.
    Whole(u32, u32),
    Sign(Former),
    Close,
}

// The sign between the parts.
fn sign(former: Former) -> &'static [u8]
    ensures { result.now ≡ typ.sign former }
{
    match former {
        Former::Arrow => b"->",
        Former::Product => b"*",
        Former::Sum => b"+",
    }
}

// The bracket before two parts is written, and what comes after it waits.
fn open_pair(
    former: Former,
    first: Piece,
    second: Piece,
    pieces: &mut Vec<Piece>,
    out: &mut Vec<u8>,
) -> Result<(), NoMemory>
    ensures pieces { OnOk result (pieces.new.items ≡ pieces.old.items ++ Piece.Close ∷ second ∷ Piece.Sign former ∷ first ∷ []) }
    ensures written { OnOk result (out.new.items ≡ out.old.items ++ codes "(") }
    ensures unchanged { OnErr result (out.new.items ≡ out.old.items) }
{
    pieces.push(Piece::Close)?;
    pieces.push(second)?;
    pieces.push(Piece::Sign(former))?;
    pieces.push(first)?;
    out.push(b'(')?;
    Ok(())
}

// Writes the start of a piece; the rest of it waits.
fn write_piece(
    nodes: &[Node],
    piece: Piece,
    pieces: &mut Vec<Piece>,
    out: &mut Vec<u8>,
) -> Result<(), NoMemory>
    requires in_order { AreNodes nodes.now }
    requires piece { IsPieceOf (length nodes.now) piece }
    requires pieces { ArePieces (length nodes.now) pieces.old.items }
    ensures written { OnOk result (out.new.items ++ pieces_text (terms_of nodes.now) pieces.new.items
        ≡ out.old.items ++ piece_text (terms_of nodes.now) piece ++ pieces_text (terms_of nodes.now) pieces.old.items) }
    ensures pieces { OnOk result (ArePieces (length nodes.now) pieces.new.items) }
    ensures less { OnOk result (pieces_size (terms_of nodes.now) pieces.new.items
        < piece_size (terms_of nodes.now) piece + pieces_size (terms_of nodes.now) pieces.old.items) }
    ensures longer { OnOk result (Lengthens out.old.items out.new.items) }
    ensures unchanged { OnErr result (out.new.items ≡ out.old.items) }
{
    match piece {
        Piece::Sign(former) => write_short(sign(former), out)?,
        Piece::Close => write_short(b")", out)?,
        Piece::Whole(place, levels) => {
            let node = nodes[place as usize];
            match node {
                Node::Variable(_) => write_short(b"?", out)?,
                Node::Num => write_short(b"num", out)?,
                Node::Boolean => write_short(b"bool", out)?,
                Node::Pair(_, _, _) if levels == 0 => write_short(b"..", out)?,
                Node::Pair(former, first, second) => {
                    let first = Piece::Whole(first, levels - 1);
                    let second = Piece::Whole(second, levels - 1);
                    open_pair(former, first, second, pieces, out)?;
                }
            }
        }
    }
    Ok(())
}

// Appends the text of the term with this number. A part of it is there where memory runs out.
fn append_term(
    alloc: Global,
    nodes: &[Node],
    place: u32,
    levels: u32,
    out: &mut Vec<u8>,
) -> Result<(), NoMemory>
    requires in_order { AreNodes nodes.now }
    requires place { place < length nodes.now }
    ensures written { OnOk result (out.new.items ≡ out.old.items ++ type_text levels (shown (kept_at (terms_of nodes.now) place))) }
    ensures longer { Lengthens out.old.items out.new.items }
{
    let mut pieces = Vec::new(alloc);
    pieces.push(Piece::Whole(place, levels))?;
    while let Some(piece) = pieces.pop() {
        write_piece(nodes, piece, &mut pieces, out)?;
    }
    Ok(())
}

impl Solution {
    /// Appends the text of a variable's term, in which each variable is `?`: `num`, `bool`, `(A->B)`, `(A*B)` or `(A+B)`. A term with
    /// parts below so many levels is `..`.
    pub fn write(&self, variable: u64, levels: u32, out: &mut Vec<u8>) -> Result<(), NoMemory>
        requires { variable < length self.now }
        ensures written { OnOk result (out.new.items ≡ out.old.items ++ type_text levels (shown (term_at self.now variable))) }
        ensures unchanged { OnErr result (out.new.items ≡ out.old.items) }
    {
        let start = out.len();
        let place = self.places[variable as usize];
        let written = append_term(*self.nodes.allocator(), &self.nodes, place, levels, out);
        if written.is_err() {
            out.truncate(start);
        }
        written
    }
}
