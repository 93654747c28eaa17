// Places at which sessions may be held.

/// A place that a session passes; session 0 is the prelude.
#[derive(Debug, Clone, Copy, PartialEq, Eq)]
pub enum GatePlace {
    /// Just before the session's command with this number, counted from 0.
    Command(u32),
    /// Just before an event of the category with this number, counted from 0, in that category's turn.
    Held(u8),
    /// After a miss in the category with this number, outside its turn.
    Missed(u8),
}

/// What each session passes at each of its places. It has no answer, and always returns.
pub trait Gate: Sync {
    /// Holds the session at this place for as long as the gate likes.
    fn pass(&self, session: u8, place: GatePlace);
}

/// The gate that lets every session pass at once.
#[derive(Debug, Clone, Copy)]
pub struct OpenGate;

impl Gate for OpenGate {
    fn pass(&self, _session: u8, _place: GatePlace) {}
}
