//! What drives the machine.

/// One event: one turn of one process, or a key. After the first shell's end no event changes anything.
#[derive(Clone, Copy, Debug, PartialEq, Eq)]
pub enum Event {
    /// A turn of one of the runnable processes in order of pid: the one at this place, modulo how many there
    /// are.
    Run(u32),
    /// A turn of the runnable process with the least pid above that of the last process that took a turn.
    /// Where there is none above, it is the one with the least pid of all.
    Next,
    /// A key of the terminal gives it this byte (XBD 11.1.9). A key that raises a signal acts at once: the processes of the foreground
    /// group get the signal, and no process takes a turn.
    Key(u8),
}
