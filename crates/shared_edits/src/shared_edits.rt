ghost use Rattle.std.specs.Prelude.{◌≡◌, IfOk, IsTrue, length};

use grove_edits::{Edit, EditKind, EditList};
use std::alloc::Global;
use std::marker::Model;
use std::sync::Arc;
use text_parts::NoMemory;

/// Edits in order, kept once for all who share them.
#[derive(Drop)]
pub struct SharedEdits {
    edits: Arc<EditList>,
}

impl Model for SharedEdits {
    ghost use Rattle.std.specs.Prelude.{List};
    ghost use Rattle.std.specs.Arc.{arc_value};
    ghost use Rattle.grove_edits.specs.declared.edit.Edit.{Edit};

    ghost Value = { List Edit };

    ghost view = { λ shared. arc_value shared.edits };
}

impl SharedEdits {
    /// Edits that nobody shares yet.
    pub fn new(alloc: Global, edits: EditList) -> Result<SharedEdits, NoMemory>
        ensures { IfOk result (λ shared. shared ≡ edits) }
    {
        let edits = Arc::new(alloc, edits)?;
        Ok(SharedEdits { edits })
    }

    /// The same edits, for one more who shares them.
    pub fn share(&self) -> Result<SharedEdits, NoMemory>
        ensures { IfOk result (λ shared. shared ≡ self.now) }
    {
        let edits = Arc::try_clone(&self.edits)?;
        Ok(SharedEdits { edits })
    }

    /// How many there are.
    pub fn len(&self) -> usize
        ensures { result ≡ length self.now }
    {
        self.edits.len()
    }

    pub fn as_slice(&self) -> &[Edit]
        ensures { result.now ≡ self.now }
    {
        self.edits.as_slice()
    }

    /// Whether these are the edits of a list, in the same order.
    pub fn are(&self, list: &EditList) -> bool
        ensures { IsTrue result → list.now ≡ self.now }
    {
        self.len() == list.len() && are_same(self.as_slice(), list.as_slice())
    }
}

// Whether two lists that are equally long are one.
fn are_same(a: &[Edit], b: &[Edit]) -> bool
    requires { length a.now ≡ length b.now }
    ensures { IsTrue result → b.now ≡ a.now }
{
    for (index, edit) in a.iter().enumerate() {
        if !is_same(edit, &b[index]) {
            return false;
        }
    }
    true
}

fn is_same(a: &Edit, b: &Edit) -> bool
    ensures { IsTrue result → a.now ≡ b.now }
{
    are_alike(a.kind(), b.kind()) && a.edge() == b.edge()
}

fn are_alike(a: EditKind, b: EditKind) -> bool
    ensures { IsTrue result → a ≡ b }
{
    match a {
        EditKind::Insert => matches!(b, EditKind::Insert),
        EditKind::Delete => matches!(b, EditKind::Delete),
    }
}
