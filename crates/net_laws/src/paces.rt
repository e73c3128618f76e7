//! What the pace of a server keeps apart: packets that leave it, and so those that come over its link.

ghost use Rattle.net_laws.specs.paces.Paces.{PaceIsKept, OutputFromPace};
ghost use Rattle.net_laws.specs.paces.Groups.{GroupIsCut, GroupKeepsLesser, PartsAreKept};
ghost use Rattle.net_laws.specs.paces.Reached.{PaceIsReached};

/// In a lawful view of a server whose pace is limited no work has more bits than the pace times its time.
pub fn pace_is_kept()
    ensures { PaceIsKept }
{}

/// At a server whose works have at most the pace R, the packets of any class, each of at most l bits, that leave in a
/// closed window [s, t] have at most R (t - s) + l bits.
pub fn output_from_pace()
    ensures { OutputFromPace }
{}

/// The flows that come to a server over one link, from a server whose pace is limited, arrive together within a bucket
/// of the longest packet and that pace; and within the lesser of it and the sum of their curves.
pub fn group_is_cut()
    ensures bucket { GroupIsCut }
    ensures lesser { GroupKeepsLesser }
{}

/// A queue keeps the sum of its parts: the flows that enter there keep the sum of their curves, and those that come
/// over one link the lesser of the sum of their curves and the bucket.
pub fn parts_are_kept()
    ensures { PartsAreKept }
{}

/// A lawful view in which that many bits leave: the premises can be met, and no lesser bound would hold.
pub fn pace_is_reached()
    ensures { PaceIsReached }
{}
