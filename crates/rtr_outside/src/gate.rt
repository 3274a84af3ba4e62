//! The moment before a call cell is bound.

/// What is to be called before each binding of a call cell.
pub trait Gate: Sync {
    /// To be called by a worker, numbered from 0, before it binds a call cell. It changes nothing that a contract sees.
    fn before_bind(&self, worker: u32);
}

/// A gate that does nothing.
#[derive(Clone, Copy, Debug)]
pub struct OpenGate;

impl Gate for OpenGate {
    fn before_bind(&self, _worker: u32) {}
}
