//! How the bindings of contexts are found. Where scopes are shallow a search goes outward from binding to binding, which needs
//! nothing but the links. Where it would go over many contexts, they get maps.
ghost use Rattle.std.specs.Prelude.{◌≡◌, ◌+◌, ◌<◌, length, IfOk};
ghost use Rattle.std.specs.Map.{keys_of};
ghost use Rattle.ctx_table.specs.CtxTable.{context_at};
ghost use Rattle.ctx_table.specs.Links.{contexts_of};
ghost use Rattle.ctx_table.specs.Tables.{way_at, IsMapOf, IsMapped, IsNear};

use crate::ctx_id::CtxId;
use crate::link::Link;
use crate::names::number_of;
use crate::scopes::{EMPTY, Scope, bind};
use grove_sorts::Ident;
use indexmap::IndexMap;
use seeded_hash::HashSeed;
use std::collections::BTreeMap;
use text_parts::NoMemory;

// How many contexts a search goes outward over at most.
const LONGEST: u8 = 16;

// How the bindings of a context are found.
#[derive(Clone, Copy)]
pub(crate) enum Way {
    // By the map with this root.
    Map(usize),
    // By going outward, over so many contexts to one that has a map.
    Outward(u8),
}

// What a search in a context begins with.
#[derive(Clone, Copy)]
pub(crate) enum Near {
    // The root of the context's map.
    Mapped(usize),
    // Its innermost binding and the context around it.
    Bound(Link),
}

// The way to the bindings of a context.
fn way_of(links: &IndexMap<Link, Way, HashSeed>, ctx: CtxId) -> Way
    requires { ctx.0 < length links.now.entries + 1 }
    ensures { result ≡ way_at links.now.entries ctx.0 }
{
    if ctx.0 == 0 {
        return Way::Map(EMPTY);
    }
    links[ctx.0 as usize - 1]
}

// What is found first of a context.
pub(crate) fn nearest(links: &IndexMap<Link, Way, HashSeed>, ctx: CtxId) -> Near
    requires { ctx.0 < length links.now.entries + 1 }
    ensures { IsNear links.now.entries ctx.0 result }
{
    if ctx.0 == 0 {
        return Near::Mapped(EMPTY);
    }
    match links.get_index(ctx.0 as usize - 1) {
        Some((_, Way::Map(root))) => Near::Mapped(*root),
        Some((link, Way::Outward(_))) => Near::Bound(*link),
        None => unreachable!(),
    }
}

// The root of the map of a context, which gets one where it has none, as do the contexts around it on the way to one that has. It
// calls itself once for each of them: `steps_inside` lets them be no more than LONGEST.
fn map_of(
    links: &mut IndexMap<Link, Way, HashSeed>,
    names: &mut BTreeMap<Ident, u64>,
    scopes: &mut Vec<Scope>,
    ctx: CtxId,
) -> Result<usize, NoMemory>
    requires mapped { IsMapped links.old.entries names.old.entries scopes.old.items }
    requires within { ctx.0 < length links.old.entries + 1 }
    ensures mapped { IsMapped links.new.entries names.new.entries scopes.new.items }
    ensures same { keys_of links.new.entries ≡ keys_of links.old.entries }
    ensures map { IfOk result (IsMapOf names.new.entries scopes.new.items (context_at (contexts_of (keys_of links.old.entries)) ctx)) }
{
    let link = match nearest(links, ctx) {
        Near::Mapped(root) => return Ok(root),
        Near::Bound(link) => link,
    };
    let outer = map_of(links, names, scopes, link.outer)?;
    let number = number_of(names, link.name)?;
    let root = bind(scopes, outer, number, link.typ)?;
    links[ctx.0 as usize - 1] = Way::Map(root);
    Ok(root)
}

// Over how many contexts a search goes that begins inside this one. Where they would be too many, this one gets a map.
pub(crate) fn steps_inside(
    links: &mut IndexMap<Link, Way, HashSeed>,
    names: &mut BTreeMap<Ident, u64>,
    scopes: &mut Vec<Scope>,
    ctx: CtxId,
) -> Result<u8, NoMemory>
    requires mapped { IsMapped links.old.entries names.old.entries scopes.old.items }
    requires within { ctx.0 < length links.old.entries + 1 }
    ensures mapped { IsMapped links.new.entries names.new.entries scopes.new.items }
    ensures same { keys_of links.new.entries ≡ keys_of links.old.entries }
{
    match way_of(links, ctx) {
        Way::Outward(steps) if steps < LONGEST => Ok(steps + 1),
        _ => {
            map_of(links, names, scopes, ctx)?;
            Ok(1)
        }
    }
}
