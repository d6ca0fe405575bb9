ghost use Rattle.std.specs.Prelude.{◌≡◌};
ghost use Rattle.grove_editor.specs.declared.author_fault.AuthorFault.TheVariants.{NoMemory as no_memory};

use text_parts::NoMemory;

/// Why an author was not asked for.
#[derive(Clone, Copy, Debug, PartialEq, Eq)]
pub enum AuthorFault {
    /// An author has a number from 1 to 4294967295.
    NoAuthor,
    /// Memory ran out.
    NoMemory,
}

impl From<NoMemory> for AuthorFault {
    ghost from_gives = { λ _ fault. fault ≡ no_memory };

    fn from(_error: NoMemory) -> AuthorFault {
        AuthorFault::NoMemory
    }
}
