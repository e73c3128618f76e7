//! The laws of a recorded run.

/// The laws of a recorded run, in the order in which they are looked at. The first eight are of one step, the last of
/// the run's end. (Own choice; the disciplines are the textbook's, deficit round robin is Shreedhar and Varghese's.)
#[derive(Clone, Copy)]
pub enum Law {
    /// A step is not before an earlier step of its server, nor after the run's end, and work ends within the run.
    L1,
    /// A packet reaches a server, is worked on or leaves only after it has entered.
    L2,
    /// A packet reaches a server a link's time after it left the server before, and once.
    L3,
    /// Work takes time and does some bits, overlaps no other, is of no packet while another is under way, and does not
    /// pass its packet's bits.
    L4,
    /// The first work on a packet is on the one that the discipline allows.
    L5,
    /// A packet leaves where it is under way and worked off, at the end of its last work.
    L6,
    /// A visit is one that the discipline allows.
    L7,
    /// Work is no faster than its server's pace, where that is limited.
    L8,
    /// At the end no packet should have reached a server and has not, and none that is worked off has not left.
    L9,
}
