//! Where in a description a run stands.

/// The part of a description that the next run belongs to.
#[derive(Clone, Copy, Debug)]
pub enum Phase {
    /// Before `grammar`.
    Heading,
    /// Among the productions: the next is another one, or `semantics` and what follows it.
    Productions,
    /// Among the declarations and equations: the next is another one, or `end`.
    Equations,
    /// Behind `end`.
    Ended,
}
