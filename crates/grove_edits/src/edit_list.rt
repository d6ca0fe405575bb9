ghost use Rattle.std.specs.Prelude.{◌≡◌, ◌∷◌, [], ◌++◌, List, length, slice_get, IsTrue, ◌↔◌, OnOk, OnErr};
ghost use Rattle.grove_edits.specs.Graph.{graph, IsCanonical};

use crate::canonical::keep_last_of_each_edge;
use crate::edit::Edit;
use std::alloc::Global;
use std::marker::Model;
use text_parts::NoMemory;

/// Edits in order.
#[derive(Debug, Drop)]
pub struct EditList {
    edits: Vec<Edit>,
}

impl Model for EditList {
    ghost use Rattle.std.specs.Prelude.{List};
    ghost use Rattle.grove_edits.specs.declared.edit.Edit.{Edit};

    ghost Value = { List Edit };

    ghost view = { λ list. list.edits.items };
}

impl EditList {
    pub fn new(alloc: Global) -> EditList
        ensures empty { result ≡ [] }
    {
        EditList {
            edits: Vec::new(alloc),
        }
    }

    /// Appends an edit.
    pub fn push(&mut self, edit: Edit) -> Result<(), NoMemory>
        ensures appended { OnOk result (self.new ≡ self.old ++ edit ∷ []) }
        ensures unchanged { OnErr result (self.new ≡ self.old) }
    {
        self.edits.push(edit)?;
        Ok(())
    }

    /// Appends edits, all of them or none.
    pub fn extend_from_slice(&mut self, edits: &[Edit]) -> Result<(), NoMemory>
        ensures appended { OnOk result (self.new ≡ self.old ++ edits.now) }
        ensures unchanged { OnErr result (self.new ≡ self.old) }
    {
        self.edits.extend_from_slice(edits)?;
        Ok(())
    }

    /// Makes room for so many further edits, where their number is known, so that none is moved as they are pushed.
    pub fn reserve(&mut self, further: usize) -> Result<(), NoMemory>
        ensures unchanged { self.new ≡ self.old }
    {
        self.edits.reserve_exact(further)?;
        Ok(())
    }

    pub fn len(&self) -> usize
        ensures { result ≡ length self.now }
    {
        self.edits.len()
    }

    pub fn is_empty(&self) -> bool
        ensures { IsTrue result ↔ (self.now ≡ []) }
    {
        self.edits.is_empty()
    }

    /// The edit at an index, or None past the end.
    pub fn get(&self, index: usize) -> Option<Edit>
        ensures { result ≡ slice_get self.now index }
    {
        self.edits.get(index).copied()
    }

    pub fn as_slice(&self) -> &[Edit]
        ensures { result.now ≡ self.now }
    {
        &self.edits
    }

    /// The canonical list of the graph that the edits make: one edit for each edge that they name, in edge order.
    /// It takes no memory.
    pub fn into_canonical(self) -> EditList
        ensures canonical { IsCanonical (graph self) result }
    {
        let EditList { mut edits } = self;
        edits.sort_unstable();
        keep_last_of_each_edge(&mut edits);
        EditList { edits }
    }
}
