//! The descriptors of all processes.

/// An entry of a process's table of descriptors (XBD 3.141).
#[derive(Clone, Copy, Debug, PartialEq, Eq)]
pub struct Descriptor {
    /// The number of the process.
    pub pid: u32,
    /// The number of the descriptor; none while it is set aside.
    pub number: Option<u8>,
    /// The number of the open file description that it refers to.
    pub description: usize,
}

/// What a process calls a descriptor.
#[derive(Clone, Copy, Debug, PartialEq, Eq)]
pub enum DescriptorRef {
    /// Its number.
    Number(u8),
    /// Of a descriptor that is set aside, the number of its description. Where a process has set aside
    /// several descriptors of one description, closing this name closes them all, and putting it back gives
    /// one of them a number.
    Aside(usize),
}

/// Which descriptors of a process are closed.
#[derive(Clone, Copy, Debug, PartialEq, Eq)]
pub enum Closing {
    /// The one of this name.
    Named(DescriptorRef),
    /// Those that are set aside.
    Asides,
    /// All.
    All,
}
