ghost use Rattle.std.specs.Prelude.{◌≡◌, ◌∷◌, ◌++◌, IfSome, OnSome, IfNone};
ghost use Rattle.text_parts.specs.Separated.{Lacks};

/// The part before the first separator, and what stands after it.
pub fn split_at_first(bytes: &[u8], separator: u8) -> Option<(&[u8], &[u8])>
    ensures parts { IfSome result (λ parts. bytes.now ≡ parts.0.now ++ separator ∷ parts.1.now) }
    ensures first { IfSome result (λ parts. Lacks separator parts.0.now) }
    ensures none { IfNone result (Lacks separator bytes.now) }
{
    let at = memchr::memchr(separator, bytes)?;
    let (before, rest) = bytes.split_at(at);
    Some((before, &rest[1..]))
}

/// The same, where the part has a few bytes: they are looked at one by one.
#[inline(always)]
pub fn split_at_next(bytes: &[u8], separator: u8) -> Option<(&[u8], &[u8])>
    ensures parts { IfSome result (λ parts. bytes.now ≡ parts.0.now ++ separator ∷ parts.1.now) }
    ensures first { IfSome result (λ parts. Lacks separator parts.0.now) }
    ensures none { IfNone result (Lacks separator bytes.now) }
{
    for at in 0..bytes.len() {
        if bytes[at] == separator {
            let (before, rest) = bytes.split_at(at);
            return Some((before, &rest[1..]));
        }
    }
    None
}
