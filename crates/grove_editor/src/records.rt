ghost use Rattle.std.specs.Prelude.{◌≡◌, ◌++◌, ℕ, List, OnOk, OnErr, IfOk, IfErr};
ghost use Rattle.grove_edits.specs.declared.vertex.Vertex.{Vertex};
ghost use Rattle.grove_edits.specs.Graph.{graph};
ghost use Rattle.mark_incremental.specs.Reading.{AreRecordsOf};
ghost use Rattle.mark_incremental.specs.Standing.{records_in};
ghost use Rattle.grove_editor.specs.Records.{record_text, records_text, vertex_text, AreRecordsTold, IsRecordTold, IsVertexFault};

use crate::editor::Editor;
use crate::vertex_fault::VertexFault;
use crate::vertex_reading::read_vertex;
use grove_edits::Vertex;
use grove_json::append_record;
use mark_incremental::Marks;
use marking::Added;
use std::alloc::Global;
use text_parts::NoMemory;
use type_core::TypePrinter;

impl Editor {
    /// Appends the records of the vertices that marking judges otherwise since the last call that takes edits, acts, undoes or redoes: a line
    /// for each, in vertex order, with what marking says of it now.
    pub fn append_changed(&self, out: &mut Vec<u8>) -> Result<(), NoMemory>
        ensures appended { OnOk result ((text : List ℕ) × AreRecordsTold (graph self.now.edits) self.now.changed text × (out.new.items ≡ out.old.items ++ text)) }
        ensures unchanged { OnErr result (out.new.items ≡ out.old.items) }
    {
        let text = records_of(self.alloc, self.replica.marks(), &self.news.changed)?;
        out.extend_from_slice(&text)?;
        Ok(())
    }

    /// Appends the record of a vertex, given by its name and its constructor as the lines of edits spell them: what marking says of it.
    pub fn append_judged(&self, words: &[u8], out: &mut Vec<u8>) -> Result<(), VertexFault>
        ensures appended { OnOk result ((vertex : Vertex) × (text : List ℕ) × (words.now ≡ vertex_text vertex) × IsRecordTold (graph self.now.edits) vertex text × (out.new.items ≡ out.old.items ++ text)) }
        ensures fault { IfErr result (IsVertexFault (graph self.now.edits) words.now) }
        ensures unchanged { OnErr result (out.new.items ≡ out.old.items) }
    {
        let Some(vertex) = read_vertex(words) else {
            return Err(VertexFault::Syntax);
        };
        let marks = self.replica.marks();
        if marks.kept(&vertex).is_none() {
            return Err(VertexFault::NoVertex);
        }
        let text = records_of(self.alloc, marks, &[vertex])?;
        out.extend_from_slice(&text)?;
        Ok(())
    }
}

// The records of some vertices.
fn records_of(alloc: Global, marks: &Marks, vertices: &[Vertex]) -> Result<Vec<u8>, NoMemory>
    requires { AreRecordsOf marks.now.types marks.now.contexts marks.now.records }
    ensures { IfOk result (λ text. text.items ≡ records_text (records_in marks.now) vertices.now) }
{
    let mut text = Vec::new(alloc);
    let mut types = TypePrinter::new(alloc, marks.types());
    for vertex in vertices {
        append_kept(marks, vertex, &mut types, &mut text)?;
    }
    Ok(text)
}

// The line of one vertex, and nothing where nothing is kept of it. After an error a part of it may stand.
fn append_kept(
    marks: &Marks,
    vertex: &Vertex,
    types: &mut TypePrinter,
    out: &mut Vec<u8>,
) -> Result<(), NoMemory>
    requires kept { AreRecordsOf marks.now.types marks.now.contexts marks.now.records }
    requires same { types.old ≡ marks.now.types }
    ensures appended { OnOk result (out.new.items ≡ out.old.items ++ record_text vertex.now (records_in marks.now vertex.now)) }
    ensures same_types { types.new ≡ types.old }
{
    let Some(record) = marks.kept(vertex) else {
        return Ok(());
    };
    let added = Added {
        mode: record.mode,
        typ: record.typ,
        mark: record.mark,
    };
    append_record(vertex, &added, types, out)?;
    out.push(b'\n')?;
    Ok(())
}
