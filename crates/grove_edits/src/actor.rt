/// Who asks for a step of a replica.
#[derive(Clone, Copy, Debug, PartialEq, Eq)]
pub enum Actor {
    Host,
    /// The author with this number.
    Author(u32),
    /// The send with this number in its session, from 1.
    Send(u32),
}
