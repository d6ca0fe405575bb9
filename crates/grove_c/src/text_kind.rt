ghost use Rattle.std.specs.Prelude.{◌≡◌, ◌≢◌, IfSome, IfNone};
ghost use Rattle.grove_c.specs.Texts.{number_of};
ghost use Rattle.grove_c.specs.declared.text_kind.TextKind.{TextKind};

/// The texts of an editor.
#[derive(Clone, Copy, PartialEq, Eq)]
pub enum TextKind {
    Print,
    Canonical,
    Json,
    Answer,
    Edits,
    Changed,
    Summary,
}

/// The text for which C has this number.
pub(crate) fn text_kind(number: u32) -> Option<TextKind>
    ensures known { IfSome result (λ kind. number_of kind ≡ number) }
    ensures unknown { IfNone result ((kind : TextKind) → number_of kind ≢ number) }
{
    match number {
        0 => Some(TextKind::Print),
        1 => Some(TextKind::Canonical),
        2 => Some(TextKind::Json),
        3 => Some(TextKind::Answer),
        4 => Some(TextKind::Edits),
        5 => Some(TextKind::Changed),
        6 => Some(TextKind::Summary),
        _ => None,
    }
}
