ghost use Rattle.std.specs.Prelude.{◌≡◌, ◌≢◌, IfSome, IfNone};
ghost use Rattle.grove_names.specs.Name.{InRange as NameInRange};
ghost use Rattle.grove_sorts.specs.Ctor.{InRange as CtorInRange};
ghost use Rattle.grove_edits.specs.declared.vertex.Vertex.{Vertex};
ghost use Rattle.grove_editor.specs.Records.{vertex_text};

use grove_edits::Vertex;
use grove_names::read_name;
use grove_sorts::{Version, read_ctor};
use text_parts::split_at_first;

/// The vertex of which a text has the name and the constructor, with a space between them.
pub(crate) fn read_vertex(text: &[u8]) -> Option<Vertex>
    ensures found { IfSome result (λ vertex. text.now ≡ vertex_text vertex) }
    ensures none { IfNone result ((vertex : Vertex) → NameInRange vertex.name → CtorInRange vertex.ctor → text.now ≢ vertex_text vertex) }
{
    let (part, rest) = split_at_first(text, b' ')?;
    match read_name(part) {
        Ok(name) => {
            let ctor = read_ctor(Version::Two, rest)?;
            Some(Vertex { name, ctor })
        }
        Err(_) => None,
    }
}
