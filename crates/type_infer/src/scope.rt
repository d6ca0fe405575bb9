ghost use Rattle.std.specs.Prelude.{◌≡◌, ◌∷◌, [], OnOk};
ghost use Rattle.type_infer.specs.TreeEquations.{variable_of};
ghost use Rattle.type_infer.specs.Walking.{without_first};

use grove_sorts::Ident;
use indexmap::IndexMap;
use seeded_hash::HashSeed;
use std::alloc::Global;
use std::marker::Model;
use text_parts::NoMemory;

// A name that was bound, with its variable and the one that it stood for before.
#[derive(Clone, Copy)]
pub(crate) struct Bound {
    pub(crate) name: Ident,
    pub(crate) variable: u32,
    pub(crate) hidden: Option<u32>,
}

/// The names that stand for variables, and which of them were bound in which order. What a name stands for is found by its hash, however
/// deep the binding is.
#[derive(Drop)]
pub(crate) struct Scope {
    // The innermost last.
    bound: Vec<Bound>,
    // What each name that was ever bound stands for now.
    variables: IndexMap<Ident, Option<u32>, HashSeed>,
}

impl Model for Scope {
    ghost use Rattle.std.specs.Prelude.{List};
    ghost use Rattle.type_infer.specs.TreeEquations.{Names};

    ghost Value = { Names };

    ghost use Rattle.type_infer.specs.Scopes.{names_of, IsScope};

    ghost view = { λ s. names_of s.bound.items };

    ghost invariant = { λ s. IsScope s.bound.items s.variables.entries };
}

impl Scope {
    /// No name is bound.
    pub(crate) fn new(alloc: Global, seed: HashSeed) -> Scope
        ensures { result ≡ [] }
    {
        Scope {
            bound: Vec::new(alloc),
            variables: IndexMap::with_hasher(alloc, seed),
        }
    }

    /// The variable that a name stands for.
    pub(crate) fn find(&self, name: &Ident) -> Option<u32>
        ensures { result ≡ variable_of self.now name.now }
    {
        self.variables.get(name).copied().flatten()
    }

    /// Binds a name inside all others.
    pub(crate) fn bind(&mut self, name: Ident, variable: u32) -> Result<(), NoMemory>
        ensures { OnOk result (self.new ≡ (name, variable) ∷ self.old) }
    {
        self.bound.reserve(1)?;
        let hidden = self.variables.insert(name, Some(variable))?.flatten();
        self.bound.push_reserved(Bound {
            name,
            variable,
            hidden,
        });
        Ok(())
    }

    /// Ends the innermost binding, if there is one.
    pub(crate) fn leave(&mut self) -> Result<(), NoMemory>
        ensures { OnOk result (self.new ≡ without_first self.old) }
    {
        if let Some(last) = self.bound.last().copied() {
            self.variables.insert(last.name, last.hidden)?;
            self.bound.pop();
        }
        Ok(())
    }
}
