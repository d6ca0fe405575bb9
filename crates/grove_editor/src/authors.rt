ghost use Rattle.std.specs.Prelude.{◌≡◌, IfSome, IfNone};
ghost use Rattle.session_script.specs.Action.{IsAuthor};

/// The author with a number, where it is that of one.
pub(crate) fn author_of(number: u64) -> Option<u32>
    ensures found { IfSome result (λ author. author ≡ number) }
    ensures author { IfSome result IsAuthor }
    ensures none { IfNone result (IsAuthor number → ⊥) }
{
    match u32::try_from(number) {
        Ok(author) => {
            if author == 0 {
                return None;
            }
            Some(author)
        }
        Err(_) => None,
    }
}
