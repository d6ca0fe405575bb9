ghost use Rattle.std.specs.Prelude.{◌≡◌, ℕ, ◌+◌, ◌<◌, ◌≤◌, [], ◌∷◌, length, IfOk, IfSome, OnOk, OnErr};
ghost use Rattle.std.specs.Option.{option_map};
ghost use Rattle.type_core.specs.Typ as typ;
ghost use Rattle.type_core.specs.TypeTable.{IsTypeOf, type_at, base_types, KeepsTypes, HasAdded, AreDistinct};
ghost use Rattle.type_core.specs.Nodes.{type_of_node, node_at, PartsAreBelow, StandOnce, HasAddedNode};

use crate::former::Former;
use crate::heads::Pairing;
use crate::landmarks::{Weight, add_weight};
use crate::node::Node;
use crate::relations::Relation;
use crate::type_id::TypeId;
use indexmap::{IndexMap, IndexSet};
use seeded_hash::HashSeed;
use std::alloc::Global;
use std::marker::Model;
use text_parts::NoMemory;

// The places of the base types in every table.
const UNKNOWN: u32 = 0;

const NUM: u32 = 1;

const BOOLEAN: u32 = 2;

/// A table of types, each of which stands once. Its numbers keep their types for as long as the table lives.
#[derive(Drop)]
pub struct TypeTable {
    nodes: IndexSet<Node, HashSeed>,
    // What was found of pairs of types.
    pub(crate) relations: IndexMap<Pairing, Relation, HashSeed>,
    // The weights of the types, by their numbers.
    pub(crate) weights: Vec<Weight>,
}

impl Model for TypeTable {
    ghost use Rattle.std.specs.Prelude.{List};
    ghost use Rattle.type_core.specs.Typ.{Typ};
    ghost use Rattle.std.specs.Coded.{coded_list};
    ghost use Rattle.type_core.specs.TypCode.{typ_code};

    ghost Value = { List Typ };

    ghost coded = { coded_list typ_code };

    ghost use Rattle.type_core.specs.Nodes.{types_of};
    ghost use Rattle.type_core.specs.Relations.{IsWhole};

    ghost view = { λ t. types_of t.nodes.keys };

    ghost invariant = { λ t. IsWhole t.nodes.keys t.relations.entries };
}

// The nodes of a table of the unknown type and the base types.
fn base_nodes(alloc: Global, seed: HashSeed) -> Result<IndexSet<Node, HashSeed>, NoMemory>
    ensures { IfOk result (λ nodes. nodes.keys ≡ Node.Unknown ∷ Node.Num ∷ Node.Boolean ∷ []) }
{
    let mut nodes = IndexSet::with_hasher(alloc, seed);
    nodes.insert(Node::Unknown)?;
    nodes.insert(Node::Num)?;
    nodes.insert(Node::Boolean)?;
    Ok(nodes)
}

// The place of a node, which goes last where it is new.
fn place_of(nodes: &mut IndexSet<Node, HashSeed>, node: Node) -> Result<u32, NoMemory>
    ensures within { IfOk result (λ place. place < length nodes.new.keys) }
    ensures node { IfOk result (λ place. node_at nodes.new.keys place ≡ node) }
    ensures added { OnOk result (HasAddedNode node nodes.old.keys nodes.new.keys) }
    ensures once { StandOnce nodes.new.keys }
    ensures unchanged { OnErr result (nodes.new.keys ≡ nodes.old.keys) }
{
    // A number of a type has 32 bits.
    if nodes.len() > u32::MAX as usize {
        return Err(NoMemory);
    }
    let (place, _) = nodes.insert_full(node)?;
    Ok(place as u32)
}

impl TypeTable {
    /// A table of the unknown type and the base types, for types that are trusted.
    pub fn new(alloc: Global) -> Result<TypeTable, NoMemory>
        ensures types { IfOk result (λ table. table ≡ base_types) }
    {
        TypeTable::with_seed(alloc, HashSeed::FIXED)
    }

    /// A table of the unknown type and the base types, which finds types and pairs of them by their hash under a seed.
    pub fn with_seed(alloc: Global, seed: HashSeed) -> Result<TypeTable, NoMemory>
        ensures types { IfOk result (λ table. table ≡ base_types) }
    {
        let nodes = base_nodes(alloc, seed)?;
        let mut weights = Vec::new(alloc);
        weights.resize(nodes.len(), Weight::NONE)?;
        Ok(TypeTable {
            nodes,
            relations: IndexMap::with_hasher(alloc, seed),
            weights,
        })
    }

    // The seed of its hashes, for what else is found by types.
    pub(crate) fn seed(&self) -> HashSeed {
        *self.nodes.hasher()
    }

    /// Two numbers of one table are equal exactly where their types are: a law, which runs no code.
    pub fn numbers_are_distinct(&self)
        ensures { AreDistinct self.now }
    {
        let _nodes = &self.nodes;
    }

    /// The number of the unknown type.
    pub fn unknown(&self) -> TypeId
        ensures number { IsTypeOf self.now result }
        ensures typ { type_at self.now result ≡ typ.Unknown }
    {
        let _nodes = &self.nodes;
        TypeId(UNKNOWN)
    }

    /// The number of the type of numbers.
    pub fn num(&self) -> TypeId
        ensures number { IsTypeOf self.now result }
        ensures typ { type_at self.now result ≡ typ.Num }
    {
        let _nodes = &self.nodes;
        TypeId(NUM)
    }

    /// The number of the type of truth values.
    pub fn boolean(&self) -> TypeId
        ensures number { IsTypeOf self.now result }
        ensures typ { type_at self.now result ≡ typ.Boolean }
    {
        let _nodes = &self.nodes;
        TypeId(BOOLEAN)
    }

    /// The number of the type of functions from `from` to `to`, which is added where the table has no such type yet.
    pub fn arrow(&mut self, from: TypeId, to: TypeId) -> Result<TypeId, NoMemory>
        requires from { IsTypeOf self.old from }
        requires to { IsTypeOf self.old to }
        ensures number { IfOk result (IsTypeOf self.new) }
        ensures typ { IfOk result (λ id. type_at self.new id ≡ typ.Pair Former.Arrow (type_at self.old from) (type_at self.old to)) }
        ensures added { OnOk result (HasAdded (typ.Pair Former.Arrow (type_at self.old from) (type_at self.old to)) self.old self.new) }
        ensures kept { KeepsTypes self.old self.new }
        ensures unchanged { OnErr result (self.new ≡ self.old) }
    {
        self.pair(Former::Arrow, from, to)
    }

    /// The number of the type of pairs of `left` and `right`, which is added where the table has no such type yet.
    pub fn product(&mut self, left: TypeId, right: TypeId) -> Result<TypeId, NoMemory>
        requires left { IsTypeOf self.old left }
        requires right { IsTypeOf self.old right }
        ensures number { IfOk result (IsTypeOf self.new) }
        ensures typ { IfOk result (λ id. type_at self.new id ≡ typ.Pair Former.Product (type_at self.old left) (type_at self.old right)) }
        ensures added { OnOk result (HasAdded (typ.Pair Former.Product (type_at self.old left) (type_at self.old right)) self.old self.new) }
        ensures kept { KeepsTypes self.old self.new }
        ensures unchanged { OnErr result (self.new ≡ self.old) }
    {
        self.pair(Former::Product, left, right)
    }

    /// The number of the type of values of `left` or of `right`, which is added where the table has no such type yet.
    pub fn sum(&mut self, left: TypeId, right: TypeId) -> Result<TypeId, NoMemory>
        requires left { IsTypeOf self.old left }
        requires right { IsTypeOf self.old right }
        ensures number { IfOk result (IsTypeOf self.new) }
        ensures typ { IfOk result (λ id. type_at self.new id ≡ typ.Pair Former.Sum (type_at self.old left) (type_at self.old right)) }
        ensures added { OnOk result (HasAdded (typ.Pair Former.Sum (type_at self.old left) (type_at self.old right)) self.old self.new) }
        ensures kept { KeepsTypes self.old self.new }
        ensures unchanged { OnErr result (self.new ≡ self.old) }
    {
        self.pair(Former::Sum, left, right)
    }

    /// The parts of `t` as a function, from and to: the unknown type counts as a function between unknown types.
    pub fn matched_arrow(&self, t: TypeId) -> Option<(TypeId, TypeId)>
        requires { IsTypeOf self.now t }
        ensures parts { option_map (λ p. (type_at self.now p.0, type_at self.now p.1)) result ≡ typ.matched_parts Former.Arrow (type_at self.now t) }
        ensures numbers { IfSome result (λ p. IsTypeOf self.now p.0 × IsTypeOf self.now p.1) }
    {
        self.matched_parts(Former::Arrow, t)
    }

    /// The parts of `t` as a pair, left and right: the unknown type counts as a pair of unknown types.
    pub fn matched_product(&self, t: TypeId) -> Option<(TypeId, TypeId)>
        requires { IsTypeOf self.now t }
        ensures parts { option_map (λ p. (type_at self.now p.0, type_at self.now p.1)) result ≡ typ.matched_parts Former.Product (type_at self.now t) }
        ensures numbers { IfSome result (λ p. IsTypeOf self.now p.0 × IsTypeOf self.now p.1) }
    {
        self.matched_parts(Former::Product, t)
    }

    /// The parts of `t` as a sum, left and right: the unknown type counts as a sum of unknown types.
    pub fn matched_sum(&self, t: TypeId) -> Option<(TypeId, TypeId)>
        requires { IsTypeOf self.now t }
        ensures parts { option_map (λ p. (type_at self.now p.0, type_at self.now p.1)) result ≡ typ.matched_parts Former.Sum (type_at self.now t) }
        ensures numbers { IfSome result (λ p. IsTypeOf self.now p.0 × IsTypeOf self.now p.1) }
    {
        self.matched_parts(Former::Sum, t)
    }

    fn matched_parts(&self, former: Former, t: TypeId) -> Option<(TypeId, TypeId)>
        requires { IsTypeOf self.now t }
        ensures parts { option_map (λ p. (type_at self.now p.0, type_at self.now p.1)) result ≡ typ.matched_parts former (type_at self.now t) }
        ensures numbers { IfSome result (λ p. IsTypeOf self.now p.0 × IsTypeOf self.now p.1) }
    {
        match self.node(t) {
            Node::Unknown => Some((t, t)),
            Node::Pair(found, first, second) if found == former => Some((first, second)),
            _ => None,
        }
    }

    // The node of the type `id`: its form, and the numbers of its parts.
    pub(crate) fn node(&self, id: TypeId) -> Node
        requires { IsTypeOf self.now id }
        ensures typ { type_at self.now id ≡ type_of_node self.now result }
        ensures parts { PartsAreBelow result id.0 }
    {
        self.nodes.as_slice()[id.0 as usize]
    }

    // The number of the type of this form from two parts.
    pub(crate) fn pair(
        &mut self,
        former: Former,
        first: TypeId,
        second: TypeId,
    ) -> Result<TypeId, NoMemory>
        requires first { IsTypeOf self.old first }
        requires second { IsTypeOf self.old second }
        ensures number { IfOk result (IsTypeOf self.new) }
        ensures typ { IfOk result (λ id. type_at self.new id ≡ typ.Pair former (type_at self.old first) (type_at self.old second)) }
        ensures added { OnOk result (HasAdded (typ.Pair former (type_at self.old first) (type_at self.old second)) self.old self.new) }
        ensures kept { KeepsTypes self.old self.new }
        ensures unchanged { OnErr result (self.new ≡ self.old) }
    {
        self.weights.reserve(1)?;
        let place = place_of(&mut self.nodes, Node::Pair(former, first, second))?;
        add_weight(&mut self.weights, self.nodes.len(), first, second);
        Ok(TypeId(place))
    }
}
