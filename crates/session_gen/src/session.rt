ghost use Rattle.std.specs.Prelude.{◌≡◌, ◌≤◌, [], ◌∷◌, IfOk};
ghost use Rattle.session_script.specs.Session.{Spells};
ghost use Rattle.session_gen.specs.Generated.{generated_text};
ghost use Rattle.session_gen.specs.Items.{AreNamed, declared, acting, send_of, sending};

use crate::loads::load_items;
use grove_edits::{Action, Place};
use grove_names::Name;
use grove_sorts::{Ctor, Position, Version, read_ident};
use session_script::{
    AuthorList, Block, Declared, IdentList, Item, Line, LineList, NoMemory, SendLine, Session,
};
use std::alloc::Global;

/// The generated session with so many loads: three replicas with an author each; the loads; a block in which each author constructs
/// a vertex at one place; and two blocks in which each replica sends all its edits to the next, once in order, and once in reverse
/// and twice.
pub fn generate(alloc: Global, loads: u64) -> Result<Session, NoMemory>
    requires { loads ≤ 200000 }
    ensures { IfOk result (Spells (generated_text loads)) }
{
    let replicas = three_replicas(alloc)?;
    let authors = three_authors(alloc)?;
    let first = acting_block(alloc)?;
    let second = sending_block(alloc, false, false)?;
    let third = sending_block(alloc, true, true)?;
    let mut items = load_items(alloc, loads)?;
    items.push(Item::Block(first))?;
    items.push(Item::Block(second))?;
    items.push(Item::Block(third))?;
    Ok(Session {
        version: Version::One,
        replicas,
        authors,
        items,
    })
}

fn three_replicas(alloc: Global) -> Result<IdentList, NoMemory>
    ensures { IfOk result AreNamed }
{
    let mut replicas = IdentList::new(alloc);
    replicas.push(read_ident(Version::One, b"a").unwrap())?;
    replicas.push(read_ident(Version::One, b"b").unwrap())?;
    replicas.push(read_ident(Version::One, b"c").unwrap())?;
    Ok(replicas)
}

fn three_authors(alloc: Global) -> Result<AuthorList, NoMemory>
    ensures { IfOk result (λ authors. authors ≡ declared) }
{
    let mut authors = AuthorList::new(alloc);
    authors.push(Declared {
        author: 4,
        replica: 0,
    })?;
    authors.push(Declared {
        author: 5,
        replica: 1,
    })?;
    authors.push(Declared {
        author: 6,
        replica: 2,
    })?;
    Ok(authors)
}

// Each author constructs a literal at the same place.
fn acting_block(alloc: Global) -> Result<Block, NoMemory>
    ensures { IfOk result (λ block. block.lines ≡ acting) }
{
    let place = Place {
        name: Name {
            author: 0,
            counter: 0,
        },
        position: Position::Main,
    };
    let ctor = Ctor::Num(1);
    let action = Action::Construct { place, ctor };
    let mut lines = LineList::new(alloc);
    lines.push(Line::Author { author: 4, action })?;
    lines.push(Line::Author { author: 5, action })?;
    lines.push(Line::Author { author: 6, action })?;
    Ok(Block { lines })
}

// Each replica sends all its edits to the next.
fn sending_block(alloc: Global, reverse: bool, twice: bool) -> Result<Block, NoMemory>
    ensures { IfOk result (λ block. block.lines ≡ sending reverse twice) }
{
    let mut lines = LineList::new(alloc);
    lines.push(send(0, 1, reverse, twice))?;
    lines.push(send(1, 2, reverse, twice))?;
    lines.push(send(2, 0, reverse, twice))?;
    Ok(Block { lines })
}

fn send(from: u64, to: u64, reverse: bool, twice: bool) -> Line
    ensures { result ≡ send_of from to reverse twice }
{
    Line::Send(SendLine {
        from,
        to,
        skip: 0,
        take: 1_000_000,
        reverse,
        twice,
        cut: 4_096,
    })
}
