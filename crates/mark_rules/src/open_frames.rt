ghost use Rattle.std.specs.Prelude.{◌≡◌, []};

use judging::Frame;
use std::alloc::Global;
use std::mem;

/// Room for the frames of a walk. It is kept from tree to tree: a graph may have many trees of few nodes each, and to make a list anew for
/// each of them would cost more than to fill it. What it holds between two trees does not count.
#[derive(Drop)]
pub struct OpenFrames<'t> {
    frames: Vec<(usize, Frame<'t>)>,
}

impl<'t> OpenFrames<'t> {
    /// An empty list, which takes no memory yet.
    pub fn new(alloc: Global) -> OpenFrames<'t> {
        OpenFrames {
            frames: Vec::new(alloc),
        }
    }

    /// Takes the list out, with no frame in it.
    pub(crate) fn take_out(&mut self, alloc: Global) -> Vec<(usize, Frame<'t>)>
        ensures { result.items ≡ [] }
    {
        let mut frames = mem::replace(&mut self.frames, Vec::new(alloc));
        // A walk to the end of a well-sorted tree leaves no frame. To clear the list costs less than to prove that of each list.
        frames.clear();
        frames
    }

    /// Puts a list that was taken out back for the next tree.
    pub(crate) fn put_back(&mut self, frames: Vec<(usize, Frame<'t>)>) {
        self.frames = frames;
    }
}
