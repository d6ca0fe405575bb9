//! Terms for all variables, from the links between them. A variable waits until its parts have terms; one that waits for itself has none.
ghost use Rattle.std.specs.Prelude.{◌≡◌, ◌≢◌, ℕ, ◌+◌, ◌-◌, ◌^◌, ◌<◌, ◌≤◌, [], ◌∷◌, ◌++◌, false, length, take, slice_set, IfOk, OnOk, IfSome, MatchOption, MatchBool};
ghost use Rattle.std.specs.Bool.{OnTrue, OnFalse};
ghost use Rattle.std.specs.List.{slice_index_or};
ghost use Rattle.type_infer.specs.Terms.{Term, term_at};
ghost use Rattle.type_infer.specs.Links.{link_at, Agree, IsLinkAt, AreLinks};
ghost use Rattle.type_infer.specs.Nodes.{kept_at, node_term, terms_of, ArePartsBelow, AreNodes, Extends};
ghost use Rattle.type_infer.specs.Placing.{mark_at, is_at, new_count, IsPlaced, placed_term, ArePartsPlaced, IsPart, linked_term, waiting_at, IsFurther, IsPlacing, AreGeneral};

use crate::form::Form;
use crate::link::Link;
use crate::node::Node;
use crate::solution::Solution;
use std::alloc::Global;
use text_parts::NoMemory;

/// How far a variable has come.
#[derive(Clone, Copy, Debug)]
pub(crate) enum Mark {
    New,
    Waiting,
    /// Its term has this number.
    At(u32),
}

/// The terms so far, and the variables that wait for their parts, each for the one above it.
#[derive(Drop)]
pub(crate) struct Placing {
    marks: Vec<Mark>,
    nodes: Vec<Node>,
    stack: Vec<u32>,
}

impl Placing {
    fn new(alloc: Global, variables: usize) -> Result<Placing, NoMemory>
        ensures marks { IfOk result (λ p. (v : ℕ) → mark_at p.marks.items v ≡ Mark.New) }
        ensures count { IfOk result (λ p. length p.marks.items ≡ variables) }
        ensures nodes { IfOk result (λ p. p.nodes.items ≡ []) }
        ensures stack { IfOk result (λ p. p.stack.items ≡ []) }
    {
        let mut marks = Vec::new(alloc);
        marks.resize(variables, Mark::New)?;
        Ok(Placing {
            marks,
            nodes: Vec::new(alloc),
            stack: Vec::new(alloc),
        })
    }

    // The number of the term of a variable that has one.
    fn placed(&self, variable: u32) -> u32
        requires within { variable < length self.now.marks.items }
        requires placed { IsPlaced self.now.marks.items variable }
        ensures { mark_at self.now.marks.items variable ≡ Mark.At result }
    {
        match self.marks[variable as usize] {
            Mark::At(place) => place,
            _ => unreachable!(),
        }
    }

    fn is_placed(&self, variable: u32) -> bool
        requires { variable < length self.now.marks.items }
        ensures { result ≡ is_at (mark_at self.now.marks.items variable) }
    {
        match self.marks[variable as usize] {
            Mark::At(_) => true,
            _ => false,
        }
    }

    // The first variable in a link that has no term yet.
    fn missing(&self, variable: u32, link: Link) -> Option<u32>
        requires link { IsLinkAt (length self.now.marks.items) variable link }
        requires within { variable < length self.now.marks.items }
        ensures none { MatchOption result (ArePartsPlaced self.now.marks.items link) (λ part. IsPart part link) }
        ensures within { IfSome result (λ part. part < length self.now.marks.items) }
        ensures unplaced { IfSome result (λ part. is_at (mark_at self.now.marks.items part) ≡ false) }
    {
        match link {
            Link::Same(before) if !self.is_placed(before) => Some(before),
            Link::Formed(Form::Pair(_, first, _)) if !self.is_placed(first) => Some(first),
            Link::Formed(Form::Pair(_, _, second)) if !self.is_placed(second) => Some(second),
            _ => None,
        }
    }

    // The variable that waits for no other that waits.
    fn top(&self) -> Option<u32>
        ensures { MatchOption result (length self.now.stack.items ≡ 0)
            (λ v. (0 < length self.now.stack.items) × (v ≡ waiting_at self.now.stack.items (length self.now.stack.items - 1))) }
    {
        self.stack.last().copied()
    }

    // A new variable waits for its parts.
    fn wait(&mut self, variable: u32) -> Result<(), NoMemory>
        requires { variable < length self.old.marks.items }
        ensures marks { OnOk result (self.new.marks.items ≡ slice_set self.old.marks.items variable Mark.Waiting) }
        ensures stack { OnOk result (self.new.stack.items ≡ self.old.stack.items ++ variable ∷ []) }
        ensures nodes { self.new.nodes.items ≡ self.old.nodes.items }
    {
        self.stack.push(variable)?;
        self.marks[variable as usize] = Mark::Waiting;
        Ok(())
    }

    // A node over those before it goes last.
    fn push_node(&mut self, node: Node) -> Result<u32, NoMemory>
        requires in_order { AreNodes self.old.nodes.items }
        requires parts { ArePartsBelow node (length self.old.nodes.items) }
        ensures term { IfOk result (λ place. kept_at (terms_of self.new.nodes.items) place ≡ node_term (terms_of self.old.nodes.items) node) }
        ensures within { IfOk result (λ place. place < length (terms_of self.new.nodes.items)) }
        ensures extended { Extends (terms_of self.old.nodes.items) (terms_of self.new.nodes.items) }
        ensures in_order { AreNodes self.new.nodes.items }
        ensures marks { self.new.marks.items ≡ self.old.marks.items }
        ensures stack { self.new.stack.items ≡ self.old.stack.items }
    {
        // A number of a term has 32 bits.
        if self.nodes.len() > u32::MAX as usize {
            return Err(NoMemory);
        }
        let place = self.nodes.len() as u32;
        self.nodes.push(node)?;
        Ok(place)
    }

    // The number of the term that a link gives its variable, where the parts have terms.
    fn place_of(&mut self, variable: u32, link: Link) -> Result<u32, NoMemory>
        requires in_order { AreNodes self.old.nodes.items }
        requires places { (v k : ℕ) → mark_at self.old.marks.items v ≡ Mark.At k → k < length (terms_of self.old.nodes.items) }
        requires within { variable < length self.old.marks.items }
        requires link { IsLinkAt (length self.old.marks.items) variable link }
        requires parts { ArePartsPlaced self.old.marks.items link }
        ensures term { IfOk result (λ place. kept_at (terms_of self.new.nodes.items) place
            ≡ linked_term (placed_term self.old.marks.items (terms_of self.old.nodes.items)) variable link) }
        ensures within { IfOk result (λ place. place < length (terms_of self.new.nodes.items)) }
        ensures extended { Extends (terms_of self.old.nodes.items) (terms_of self.new.nodes.items) }
        ensures in_order { AreNodes self.new.nodes.items }
        ensures marks { self.new.marks.items ≡ self.old.marks.items }
        ensures stack { self.new.stack.items ≡ self.old.stack.items }
    {
        match link {
            Link::Same(before) => Ok(self.placed(before)),
            Link::Free => self.push_node(Node::Variable(variable)),
            Link::Formed(Form::Num) => self.push_node(Node::Num),
            Link::Formed(Form::Boolean) => self.push_node(Node::Boolean),
            Link::Formed(Form::Pair(former, first, second)) => {
                let first = self.placed(first);
                let second = self.placed(second);
                self.push_node(Node::Pair(former, first, second))
            }
        }
    }

    // The variable on top, whose parts have terms, gets its own.
    fn place_top(&mut self, links: &[Link], top: u32) -> Result<(), NoMemory>
        requires links { AreLinks links.now }
        requires placing { IsPlacing links.now self.old.marks.items self.old.nodes.items self.old.stack.items }
        requires some { 0 < length self.old.stack.items }
        requires top { top ≡ waiting_at self.old.stack.items (length self.old.stack.items - 1) }
        requires parts { ArePartsPlaced self.old.marks.items (link_at links.now top) }
        ensures placing { OnOk result (IsPlacing links.now self.new.marks.items self.new.nodes.items self.new.stack.items) }
        ensures stack { OnOk result (length self.new.stack.items + 1 ≡ length self.old.stack.items) }
        ensures further { OnOk result (IsFurther self.old.marks.items self.new.marks.items) }
        ensures new_ones { OnOk result (new_count self.new.marks.items ≡ new_count self.old.marks.items) }
    {
        let place = self.place_of(top, links[top as usize])?;
        self.marks[top as usize] = Mark::At(place);
        self.stack.pop();
        Ok(())
    }

    fn is_waiting(&self, variable: u32) -> bool
        requires { variable < length self.now.marks.items }
        ensures { MatchBool result (mark_at self.now.marks.items variable ≡ Mark.Waiting) (mark_at self.now.marks.items variable ≢ Mark.Waiting) }
    {
        match self.marks[variable as usize] {
            Mark::Waiting => true,
            _ => false,
        }
    }

    fn is_new(&self, variable: u32) -> bool
        requires { variable < length self.now.marks.items }
        ensures { MatchBool result (mark_at self.now.marks.items variable ≡ Mark.New) (mark_at self.now.marks.items variable ≢ Mark.New) }
    {
        match self.marks[variable as usize] {
            Mark::New => true,
            _ => false,
        }
    }

    // Whether a new variable can have a term: it and all its parts get theirs, but where one of them waits for itself.
    fn place(&mut self, links: &[Link], variable: u32) -> Result<bool, NoMemory>
        requires links { AreLinks links.now }
        requires placing { IsPlacing links.now self.old.marks.items self.old.nodes.items self.old.stack.items }
        requires none_waits { self.old.stack.items ≡ [] }
        requires within { variable < length links.now }
        requires is_new { mark_at self.old.marks.items variable ≡ Mark.New }
        ensures placing { IfOk result (λ placed. OnTrue placed (IsPlacing links.now self.new.marks.items self.new.nodes.items self.new.stack.items)) }
        ensures none_waits { IfOk result (λ placed. OnTrue placed (self.new.stack.items ≡ [])) }
        ensures further { IfOk result (λ placed. OnTrue placed (IsFurther self.old.marks.items self.new.marks.items)) }
        ensures placed { IfOk result (λ placed. OnTrue placed (IsPlaced self.new.marks.items variable)) }
        ensures circular { IfOk result (λ placed. OnFalse placed ((terms : ℕ → Term) → Agree terms links.now → ⊥)) }
    {
        self.wait(variable)?;
        while let Some(top) = self.top() {
            match self.missing(top, links[top as usize]) {
                None => self.place_top(links, top)?,
                Some(part) => {
                    if self.is_waiting(part) {
                        return Ok(false);
                    }
                    self.wait(part)?;
                }
            }
        }
        Ok(true)
    }

    // The terms of variables that all have one.
    fn solution(self, alloc: Global) -> Result<Solution, NoMemory>
        requires in_order { AreNodes self.nodes.items }
        requires places { (v k : ℕ) → mark_at self.marks.items v ≡ Mark.At k → k < length (terms_of self.nodes.items) }
        requires placed { (v : ℕ) → v < length self.marks.items → IsPlaced self.marks.items v }
        ensures terms { IfOk result (λ s. (v : ℕ) → term_at s v ≡ placed_term self.marks.items (terms_of self.nodes.items) v) }
        ensures count { IfOk result (λ s. length s ≡ length self.marks.items) }
    {
        let Placing {
            marks,
            nodes,
            stack: _,
        } = self;
        let places = places_of(alloc, &marks)?;
        Ok(Solution { nodes, places })
    }
}

// The numbers of the terms of variables that all have one.
fn places_of(alloc: Global, marks: &[Mark]) -> Result<Vec<u32>, NoMemory>
    requires { (v : ℕ) → v < length marks.now → IsPlaced marks.now v }
    ensures count { IfOk result (λ places. length places.items ≡ length marks.now) }
    ensures places { IfOk result (λ places. (v : ℕ) → v < length marks.now → mark_at marks.now v ≡ Mark.At (slice_index_or places.items v 0)) }
{
    let mut places = Vec::new(alloc);
    for mark in marks {
        match *mark {
            Mark::At(place) => places.push(place)?,
            _ => unreachable!(),
        }
    }
    Ok(places)
}

/// Terms for all variables from which all others come that agree with the links, or None where none agree with them.
pub(crate) fn place_all(alloc: Global, links: &[Link]) -> Result<Option<Solution>, NoMemory>
    requires links { AreLinks links.now }
    requires count { length links.now < 2 ^ 32 }
    ensures placed { IfOk result (λ placed. MatchOption placed ((terms : ℕ → Term) → Agree terms links.now → ⊥) (AreGeneral links.now)) }
    ensures count { IfOk result (λ placed. IfSome placed (λ s. length s ≡ length links.now)) }
{
    let mut placing = Placing::new(alloc, links.len())?;
    for variable in 0..links.len() as u32 {
        if placing.is_new(variable) && !placing.place(links, variable)? {
            return Ok(None);
        }
    }
    Ok(Some(placing.solution(alloc)?))
}
