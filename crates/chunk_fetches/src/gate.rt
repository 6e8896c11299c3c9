use std::sync::Wait;

/// Where a run may be held up, so that tests can order what sessions do. It changes nothing.
pub trait Gate {
    /// Called before each line of a session, with no turn held.
    fn before<R: Wait>(&self, rt: &R, session: u32, line: u64);

    /// Called before a chunk is decoded or encoded outside of a turn.
    fn coding<R: Wait>(&self, rt: &R, session: u32);
}

/// A gate that holds nobody up.
#[derive(Clone, Copy, Debug)]
pub struct OpenGate;

impl Gate for OpenGate {
    fn before<R: Wait>(&self, _rt: &R, _session: u32, _line: u64) {}

    fn coding<R: Wait>(&self, _rt: &R, _session: u32) {}
}
