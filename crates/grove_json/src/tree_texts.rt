ghost use Rattle.std.specs.Prelude.{◌≡◌, ◌++◌, [], ◌∷◌, OnOk};
ghost use Rattle.marking.specs.Reading.{meant_nodes};
ghost use Rattle.marking.specs.Numbers.{AreMarkedNodesOf};
ghost use Rattle.grove_json.specs.TreeTexts.{listed, with_section, with_trees};
ghost use Rattle.grove_json.specs.Laws.{listed_none, listed_more};

use crate::node_text::append_tree;
use grove_answers::Report;
use grove_printer::Section;
use marking::MarkedTree;
use std::alloc::Global;
use std::marker::Model;
use text_parts::NoMemory;
use type_core::{TypePrinter, TypeTable};

/// The texts of the trees so far, for each list apart, since in the report the last comes first. A comma stands before each tree.
#[derive(Drop)]
pub(crate) struct TreeTexts {
    /// The list whose trees come.
    pub(crate) section: Section,
    pub(crate) none: Vec<u8>,
    pub(crate) multi: Vec<u8>,
    pub(crate) cycle: Vec<u8>,
}

impl Model for TreeTexts {
    ghost use Rattle.grove_json.specs.TreeTexts.{Texts};

    ghost Value = { Texts };

    ghost view = { λ t. record { section = t.section; none = t.none.items; multi = t.multi.items; cycle = t.cycle.items } };
}

impl TreeTexts {
    /// Before the first tree.
    pub(crate) fn new(alloc: Global) -> TreeTexts
        ensures none { result.none ≡ [] }
        ensures multi { result.multi ≡ [] }
        ensures cycle { result.cycle ≡ [] }
    {
        TreeTexts {
            section: Section::NoParent,
            none: Vec::new(alloc),
            multi: Vec::new(alloc),
            cycle: Vec::new(alloc),
        }
    }
}

impl Report for TreeTexts {
    ghost begins = { λ before section trees after. after ≡ with_section section before };

    ghost takes = { λ before trees marked after. after ≡ with_trees marked before };

    ghost takes_none = { λ texts. listed_none texts };

    ghost takes_more = { λ r s t a b m n first then. listed_more r s t m n first then };

    fn begin(&mut self, section: Section, _trees: usize) -> Result<(), NoMemory> {
        self.section = section;
        Ok(())
    }

    fn take(&mut self, marked: &MarkedTree, types: &TypeTable) -> Result<(), NoMemory> {
        match self.section {
            Section::NoParent => append_listed(marked, types, &mut self.none),
            Section::Multi => append_listed(marked, types, &mut self.multi),
            Section::Cycle => append_listed(marked, types, &mut self.cycle),
        }
    }
}

fn append_listed(marked: &MarkedTree, types: &TypeTable, out: &mut Vec<u8>) -> Result<(), NoMemory>
    requires { AreMarkedNodesOf types.now marked.now }
    ensures { OnOk result (out.new.items ≡ out.old.items ++ listed (meant_nodes types.now marked.now ∷ [])) }
{
    let mut printer = TypePrinter::new(*out.allocator(), types);
    out.push(b',')?;
    append_tree(marked, &mut printer, out)?;
    Ok(())
}
