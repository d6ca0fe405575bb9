ghost use Rattle.std.specs.Prelude.{◌≡◌};
ghost use Rattle.grove_printer.specs.Print.{section_word};

/// Which of the three lists of a grove.
#[derive(Clone, Copy, Debug, PartialEq, Eq)]
pub enum Section {
    /// The trees of vertices without a parent.
    NoParent,
    /// Those of vertices with two parents or more.
    Multi,
    /// Those of the least vertices of cycles.
    Cycle,
}

impl Section {
    /// The word of its heading, with the space behind it.
    pub(crate) fn word(self) -> &'static [u8]
        ensures { result.now ≡ section_word self }
    {
        match self {
            Section::NoParent => b"none ",
            Section::Multi => b"multi ",
            Section::Cycle => b"cycle ",
        }
    }
}
