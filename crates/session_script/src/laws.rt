ghost use Rattle.std.specs.Prelude.{◌≡◌, ◌↔◌, ◌++◌, ℕ, List};
ghost use Rattle.grove_sorts.specs.declared.version.Version.{Version};
ghost use Rattle.grove_sorts.specs.declared.version.Version.TheVariants.{One, Two};
ghost use Rattle.grove_edits.specs.declared.action.Action.{Action};
ghost use Rattle.grove_edits.specs.declared.edge.EdgeFault.{EdgeFault};
ghost use Rattle.session_script.specs.declared.script_kind.ScriptKind.{ScriptKind};
ghost use Rattle.session_script.specs.declared.session.Session.{Session};
ghost use Rattle.session_script.specs.declared.statement.Statement.{Statement};
ghost use Rattle.session_script.specs.Action.{ActionInRange, IsAuthor, action_line};
ghost use Rattle.session_script.specs.Statement.{Says, LoadsBadEdge, SaysNothing};
ghost use Rattle.session_script.specs.Judged.{HasSessionOrFault, AreJudged};
ghost use Rattle.session_script.specs.Script.{HasLineFault, IsBad, IsWhole};
ghost use Rattle.session_script.specs.Session.{head, Spells};
ghost use Rattle.session_script.specs.View.{version_after};

use crate::statement::Statement;
use crate::statement_reading::read_statement;
use grove_sorts::Version;
use text_parts::split_at_first;

/// Law: in a version a line says one thing at most, or loads an edit of an edge with one first fault, or neither, and not two of these.
/// So it has one first fault at most, wherever it stands. What it says in version one it says in version two, and an author's line says
/// in version two what its author does.
pub fn lines_say_one_thing()
    ensures one { (version : Version) (line : List ℕ) (a b : Statement) → Says version line a → Says version line b → a ≡ b }
    ensures not_nothing { (version : Version) (line : List ℕ) (statement : Statement) → Says version line statement → SaysNothing version line → ⊥ }
    ensures no_bad_edge { (version : Version) (line : List ℕ) (statement : Statement) (fault : EdgeFault) → Says version line statement → LoadsBadEdge version line fault → ⊥ }
    ensures one_fault { (before : List Statement) (line : List ℕ) (k l : ScriptKind) → HasLineFault before line k → HasLineFault before line l → k ≡ l }
    ensures kept_in_two { (line : List ℕ) (statement : Statement) → Says One line statement → Says Two line statement }
    ensures author_line { (author : ℕ) (action : Action) → IsAuthor author → ActionInRange action → Says Two (action_line author action) (Statement.Act author action) }
{}

/// Law: a text spells one session at most, or it has one first bad line with one kind of fault, and not both. It spells one exactly where it
/// is the lines of statements after which a session may end. What it spells in version one it spells in version two behind the first line
/// of that version.
pub fn texts_are_exact()
    ensures some_session { (text : List ℕ) → IsWhole text ↔ ((session : Session) × Spells text session) }
    ensures one_session { (text : List ℕ) (a b : Session) → Spells text a → Spells text b → a ≡ b }
    ensures one_fault { (text : List ℕ) (m n : ℕ) (k l : ScriptKind) → IsBad text m k → IsBad text n l → (m ≡ n) × (k ≡ l) }
    ensures session_or_fault { (text : List ℕ) (session : Session) (line : ℕ) (kind : ScriptKind) → Spells text session → IsBad text line kind → ⊥ }
    ensures kept_in_two { (body : List ℕ) (session : Session) → session.version ≡ One → Spells (head One ++ body) session → Spells (head Two ++ body) (record session { version = Two }) }
{}

/// Law: each text spells a session, or it has a first bad line.
pub fn a_text_has_a_session_or_a_fault(text: &[u8])
    ensures { HasSessionOrFault text.now }
{
    judge_lines(Version::One, text);
}

fn judge_lines(version: Version, lines: &[u8])
    ensures { AreJudged version lines.now }
{
    let Some((line, after)) = split_at_first(lines, b'\n') else {
        return;
    };
    if let Ok(statement) = read_statement(version, line) {
        judge_lines(version_behind(version, &statement), after);
    }
}

// The version of the lines behind a statement.
fn version_behind(version: Version, statement: &Statement) -> Version
    ensures { result ≡ version_after version statement.now }
{
    match statement {
        Statement::Session(own) => *own,
        _ => version,
    }
}
