// When the calls of authors start.
ghost use Rattle.std.specs.Prelude.{IsTrue};

/// Says when the calls of authors start, and changes nothing else. Any thread may ask it, and it is asked again and again until
/// it is ready.
pub trait Gate: Sync {
    /// Whether a call may start. `call` is the number of the author's line in the whole session, from 1.
    fn ready(&self, author: u32, call: u64) -> bool;
}

/// Lets every call start at once.
#[derive(Clone, Copy, Debug, PartialEq, Eq)]
pub struct OpenGate;

impl Gate for OpenGate {
    fn ready(&self, _author: u32, _call: u64) -> bool
        ensures { IsTrue result }
    {
        true
    }
}
