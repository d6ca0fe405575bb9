//! The equations of a tree, from its nodes in preorder. It goes over them once, with the places that are still to come on a stack.
ghost use Rattle.std.specs.Prelude.{◌≡◌, ℕ, ◌+◌, ◌*◌, ◌^◌, ◌<◌, ◌++◌, ◌∷◌, [], List, length, drop, reverse, replicate, IfOk, OnOk};
ghost use Rattle.std.specs.Option.{option_map};
ghost use Rattle.grove_sorts.specs.declared.position.Position.{Position};
ghost use Rattle.grove_sorts.specs.Ctor.{positions};
ghost use Rattle.grove_edits.specs.declared.vertex.Vertex.{Vertex};
ghost use Rattle.grove_terms.specs.Forest.{Forest};
ghost use Rattle.grove_terms.specs.Lent.{node_of, nodes_of};
ghost use Rattle.grove_terms.specs.Nodes.{tree_nodes};
ghost use Rattle.type_infer.specs.Rows.{place_list, StandAt, ArePlacesOf};
ghost use Rattle.type_infer.specs.Terms.{Variable};
ghost use Rattle.type_infer.specs.TreeEquations.{first_variable, binder_of, form_equations, tree_equations};
ghost use Rattle.type_infer.specs.Walking.{heads, five, name_of, name_at, walk, named, entered, form_places, node_equations, behind, list_equations};
ghost use Rattle.type_infer.specs.Positions.{row_at, walk_at, AreWithin};

use crate::eq_list::EqList;
use crate::positions::rows;
use crate::rows::{Places, push_row};
use crate::scope::Scope;
use edit_table::LentCtor;
use grove_sorts::{Ctor, Ident, position_count};
use grove_terms::{LentNode, LentWhat};
use seeded_hash::HashSeed;
use std::alloc::Global;
use text_parts::NoMemory;

/// A place that is still to come.
#[derive(Clone, Copy, Debug)]
pub(crate) enum Place {
    Plain,
    /// The name of the line with the first variable, if it has one, stands for the second variable there.
    Binding(u32, u32),
    /// The innermost name's scope ends here. No line stands here.
    End,
}

/// A tree of which the equations of some lines are listed.
#[derive(Drop)]
pub(crate) struct Walk {
    // What is still to come, the next place last.
    pub(crate) places: Vec<Place>,
    pub(crate) scope: Scope,
    pub(crate) list: EqList,
}

// The name of a node, where it is a pattern with one.
fn name_of<'t>(node: &LentNode<'t>) -> Option<&'t Ident>
    ensures { option_map (λ name. name.now) result ≡ name_of (node_of node.now).what }
{
    match node.what() {
        LentWhat::Vertex(vertex) => match vertex.ctor {
            LentCtor::At(Ctor::PVar(name)) => Some(name),
            _ => None,
        },
        _ => None,
    }
}

// The name of the line with a variable.
fn name_at<'t>(nodes: &[LentNode<'t>], variable: u32) -> Option<&'t Ident>
    ensures { option_map (λ name. name.now) result ≡ name_at (nodes_of nodes.now) variable }
{
    name_of(nodes.get(variable as usize / 3)?)
}

// The variable that the name of a form stands for.
fn binder_of(scope: &Scope, ctor: &Ctor) -> Option<u32>
    ensures { result ≡ binder_of scope.now ctor.now }
{
    match ctor {
        Ctor::Var(name) => scope.find(name),
        _ => None,
    }
}

// Plain places are to come first.
fn push_plain(places: &mut Vec<Place>, count: u64) -> Result<(), NoMemory>
    ensures { OnOk result (reverse places.new.items ≡ replicate count Place.Plain ++ reverse places.old.items) }
{
    for _ in 0..count {
        places.push(Place::Plain)?;
    }
    Ok(())
}

// The places of a form are to come first.
fn push_form(places: &mut Vec<Place>, ctor: &Ctor, at: Places, x: u32) -> Result<(), NoMemory>
    requires { x + 2 < 2 ^ 32 }
    ensures { OnOk result ((lines : Position → ℕ) → StandAt lines (positions ctor.now) (place_list at)
        → reverse places.new.items ≡ form_places ctor.now lines x ++ reverse places.old.items) }
{
    match ctor {
        Ctor::Lam | Ctor::Let => {
            places.push(Place::Binding(at.first, at.second))?;
            push_plain(places, 2)
        }
        Ctor::Case => {
            places.push(Place::Binding(at.fourth, x + 2))?;
            places.push(Place::Plain)?;
            places.push(Place::Binding(at.second, x + 1))?;
            push_plain(places, 2)
        }
        _ => push_plain(places, position_count(ctor) as u64),
    }
}

impl Walk {
    // No line is listed, and one place is to come.
    fn new(alloc: Global, variables: u32, seed: HashSeed) -> Result<Walk, NoMemory>
        ensures walk { IfOk result (λ w. walk_at w ≡ walk (Place.Plain ∷ []) []) }
        ensures within { IfOk result (λ w. AreWithin variables w) }
        ensures empty { IfOk result (λ w. w.list.equations ≡ []) }
    {
        let mut places = Vec::new(alloc);
        places.push(Place::Plain)?;
        Ok(Walk {
            places,
            scope: Scope::new(alloc, seed),
            list: EqList::new(alloc, variables),
        })
    }

    // A place with the name of the line with a variable, if it has one, and what ends its scope.
    fn name(&mut self, nodes: &[LentNode], pattern: u32, variable: u32) -> Result<(), NoMemory>
        requires within { AreWithin self.old.list.variables self.old }
        requires variable { variable < self.old.list.variables }
        ensures walk { OnOk result (walk_at self.new ≡ named (name_at (nodes_of nodes.now) pattern) variable (reverse self.old.places.items) self.old.scope) }
        ensures within { OnOk result (AreWithin self.old.list.variables self.new) }
        ensures list { self.new.list ≡ self.old.list }
    {
        if let Some(name) = name_at(nodes, pattern) {
            self.places.push(Place::End)?;
            self.scope.bind(*name, variable)?;
        }
        Ok(())
    }

    // Leaves the scopes that end, and enters the next place.
    fn enter(&mut self, nodes: &[LentNode]) -> Result<(), NoMemory>
        requires { AreWithin self.old.list.variables self.old }
        ensures walk { OnOk result (walk_at self.new ≡ entered (name_at (nodes_of nodes.now)) (reverse self.old.places.items) self.old.scope) }
        ensures within { OnOk result (AreWithin self.old.list.variables self.new) }
        ensures list { self.new.list ≡ self.old.list }
    {
        while let Some(place) = self.places.pop() {
            match place {
                Place::End => self.scope.leave()?,
                Place::Plain => return Ok(()),
                Place::Binding(pattern, variable) => return self.name(nodes, pattern, variable),
            }
        }
        Ok(())
    }

    // Lists the equations of a form, and what is to come under it.
    fn take_form(&mut self, ctor: &Ctor, at: Places, x: u32) -> Result<(), NoMemory>
        requires fits { x + 2 < 2 ^ 32 }
        requires within { AreWithin self.old.list.variables self.old }
        requires line { x + 2 < self.old.list.variables }
        requires places { ArePlacesOf self.old.list.variables at }
        ensures listed { OnOk result ((lines : Position → ℕ) → StandAt lines (positions ctor.now) (place_list at)
            → self.new.list.equations ≡ self.old.list.equations
            ++ form_equations ctor.now (λ p. Variable (lines p)) (Variable x) (Variable (x + 1)) (Variable (x + 2)) (binder_of self.old.scope ctor.now)) }
        ensures places { OnOk result ((lines : Position → ℕ) → StandAt lines (positions ctor.now) (place_list at)
            → walk_at self.new ≡ walk (form_places ctor.now lines x ++ reverse self.old.places.items) self.old.scope) }
        ensures within { OnOk result (AreWithin self.old.list.variables self.new) }
        ensures variables { self.new.list.variables ≡ self.old.list.variables }
    {
        push_row(&mut self.list, ctor, at, x, binder_of(&self.scope, ctor))?;
        push_form(&mut self.places, ctor, at, x)
    }

    // Lists the equations of a node whose place was entered, and what is to come under it.
    fn take(&mut self, node: &LentNode, at: Places, x: u32) -> Result<(), NoMemory>
        requires fits { x + 2 < 2 ^ 32 }
        requires within { AreWithin self.old.list.variables self.old }
        requires line { x + 2 < self.old.list.variables }
        requires places { ArePlacesOf self.old.list.variables at }
        ensures listed { OnOk result ((firsts : List ℕ) (line : ℕ) → place_list at ≡ five firsts → x ≡ first_variable line
            → self.new.list.equations ≡ self.old.list.equations ++ node_equations (node_of node.now).what firsts line self.old.scope) }
        ensures places { OnOk result ((firsts : List ℕ) (line : ℕ) → place_list at ≡ five firsts → x ≡ first_variable line
            → walk_at self.new ≡ behind (node_of node.now).what firsts line (walk_at self.old)) }
        ensures within { OnOk result (AreWithin self.old.list.variables self.new) }
        ensures variables { self.new.list.variables ≡ self.old.list.variables }
    {
        match node.what() {
            LentWhat::Vertex(vertex) => match vertex.ctor {
                LentCtor::At(ctor) => self.take_form(ctor, at, x),
                LentCtor::Literal(number) => self.take_form(&Ctor::Num(number), at, x),
            },
            LentWhat::Conflict(_, count) => push_plain(&mut self.places, count),
            LentWhat::Hole(_) | LentWhat::MultiRef(_) | LentWhat::CycleRef(_) => Ok(()),
        }
    }
}

/// The equations of a tree, from its nodes in preorder: those of each line, as the lines come. Names are found by their hashes under a
/// seed. A variable has 32 bits, so a tree with more variables than that is given up like one for which memory runs out.
pub fn equations(alloc: Global, nodes: &[LentNode], seed: HashSeed) -> Result<EqList, NoMemory>
    ensures variables { IfOk result (λ list. list.variables ≡ 3 * length nodes.now) }
    ensures equations { IfOk result (λ list. (v : Vertex) (f : Forest) → nodes_of nodes.now ≡ tree_nodes v f → list.equations ≡ tree_equations v f) }
{
    if nodes.len() > u32::MAX as usize / 3 {
        return Err(NoMemory);
    }
    let rows = rows(alloc, nodes)?;
    list_equations(alloc, nodes, &rows, seed)
}

fn list_equations(
    alloc: Global,
    nodes: &[LentNode],
    rows: &[Places],
    seed: HashSeed,
) -> Result<EqList, NoMemory>
    requires small { 3 * length nodes.now < 2 ^ 32 }
    requires count { length rows.now ≡ length nodes.now }
    requires places { (i : ℕ) → i < length nodes.now → place_list (row_at rows.now i) ≡ five (heads (drop (i + 1) (nodes_of nodes.now)) (i + 1)) }
    requires within { (i : ℕ) → i < length nodes.now → ArePlacesOf (3 * length nodes.now) (row_at rows.now i) }
    ensures variables { IfOk result (λ list. list.variables ≡ 3 * length nodes.now) }
    ensures equations { IfOk result (λ list. list.equations ≡ list_equations (nodes_of nodes.now)) }
{
    let mut walk = Walk::new(alloc, 3 * nodes.len() as u32, seed)?;
    for line in 0..nodes.len() {
        walk.enter(nodes)?;
        walk.take(&nodes[line], rows[line], 3 * line as u32)?;
    }
    let Walk { list, .. } = walk;
    Ok(list)
}
