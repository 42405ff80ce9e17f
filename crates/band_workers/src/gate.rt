//! What a worker passes before it labels its band.

/// What each worker calls before it labels its band, for those who watch the threads: a test lets workers
/// wait there for each other. It has no effect on labels.
pub trait Gate {
    /// Passes the gate as the worker of the band of this number, from 0.
    fn pass(&self, band: usize);
}

/// A gate that stands open.
#[derive(Clone, Copy, Debug, PartialEq, Eq)]
pub struct OpenGate;

impl Gate for OpenGate {
    fn pass(&self, _band: usize) {}
}
