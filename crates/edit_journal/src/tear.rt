// What a crash may make of writes and cuts that no sync has put on the disk.
ghost use Rattle.std.specs.Prelude.{◌≡◌, ◌≤◌, ◌+◌, take, drop, vec_len, vec_capacity};
ghost use Rattle.edit_journal.specs.Disk.{Torn, MaybeCut};

/// How a crash spoils what was done since the last sync.
#[derive(Clone, Copy, Debug, Default, PartialEq, Eq)]
pub struct Tear {
    /// The byte that stands in the range of each write.
    pub byte: u8,
    /// How many bytes, at most, are missing from the end of each write that goes past the end of the file.
    pub missing: usize,
    /// Whether cuts have happened.
    pub cuts: bool,
}

impl Tear {
    /// Tears a write of so many bytes. One that begins past the end leaves the file as it is.
    pub(crate) fn tear_write(self, file: &mut Vec<u8>, at: usize, length: usize)
        requires room { at + length ≤ vec_capacity file.old }
        ensures torn { Torn at length file.old.items file.new.items }
        ensures capacity { vec_capacity file.old ≤ vec_capacity file.new }
    {
        if at > file.len() {
            return;
        }
        let inside = length.min(file.len() - at);
        let past = length - inside;
        spoil(file, at, at + inside, self.byte);
        let end = file.len() + (past - past.min(self.missing));
        file.resize(end, self.byte).unwrap();
    }

    /// Cuts the file or leaves it.
    pub(crate) fn tear_cut(self, file: &mut Vec<u8>, kept: usize)
        ensures cut { MaybeCut kept file.old.items file.new.items }
        ensures capacity { vec_capacity file.old ≤ vec_capacity file.new }
    {
        if self.cuts {
            file.truncate(kept);
        }
    }
}

// Puts the byte in each place of a range.
fn spoil(file: &mut Vec<u8>, start: usize, end: usize, byte: u8)
    requires order { start ≤ end }
    requires within { end ≤ vec_len file.old }
    ensures before { take start file.new.items ≡ take start file.old.items }
    ensures behind { drop end file.new.items ≡ drop end file.old.items }
    ensures length { vec_len file.new ≡ vec_len file.old }
    ensures capacity { vec_capacity file.old ≤ vec_capacity file.new }
{
    for place in start..end {
        file[place] = byte;
    }
}
