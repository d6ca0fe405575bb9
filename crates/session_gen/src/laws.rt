ghost use Rattle.std.specs.Prelude.{◌≡◌, ◌≤◌, ℕ};
ghost use Rattle.session_script.specs.declared.session.Session.{Session};
ghost use Rattle.session_script.specs.Session.{Spells};
ghost use Rattle.session_gen.specs.Generated.{generated_text};
ghost use Rattle.session_gen.specs.Parts.{HasParts};

/// Law: one session at most is generated of each size.
pub fn one_generated_session()
    ensures { (loads : ℕ) (a b : Session) → Spells (generated_text loads) a → Spells (generated_text loads) b → a ≡ b }
{}

/// Law: the session of a size has three replicas with an author each, as many loads, and three blocks: one in which each author
/// acts, and two in which each replica sends to the next.
pub fn generated_sessions_have_these_parts()
    ensures { (loads : ℕ) (session : Session) → loads ≤ 200000 → Spells (generated_text loads) session → HasParts loads session }
{}
