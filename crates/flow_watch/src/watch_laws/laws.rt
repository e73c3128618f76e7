ghost use Rattle.flow_watch.specs.watch_laws.Times.{TurnsAreTimes, StretchesBegin};
ghost use Rattle.flow_watch.specs.watch_laws.Laws.{PairsSuffice, WatchPointsSuffice, TurnsSuffice, TurnsSufficeWithin, TurnsSufficeBetween, StretchesAreApart, BreaksAreStarts, BreachesTell, FirstIsOne};
ghost use Rattle.flow_watch.specs.watch_laws.Reaches.{ReachSuffices};
ghost use Rattle.flow_watch.specs.watch_laws.Segments.{SegmentsTell};
ghost use Rattle.flow_watch.specs.watch_laws.MarkSizes.{MarksFit, KeysFit};

/// A flow of a lawful run keeps its arrival curve in every closed window exactly where it does between each two of its
/// packets.
pub fn pairs_suffice()
    ensures { PairsSuffice }
{}

/// A server keeps its service curve in every busy window exactly where it does between each two watch points of a
/// stretch.
pub fn watch_points_suffice()
    ensures { WatchPointsSuffice }
{}

/// It keeps it exactly where it does between each two times of a stretch of which one is a turn, and the other too or
/// one of the curve's times before or after it.
pub fn turns_suffice()
    ensures { TurnsSuffice }
{}

/// A window of a stretch that is too short of work has one in the same stretch between such times.
pub fn turns_suffice_within()
    ensures { TurnsSufficeWithin }
{}

/// A window between two turns that is too short of work has one between the same turns between such times.
pub fn turns_suffice_between()
    ensures { TurnsSufficeBetween }
{}

/// Of a curve that repeats it has one that is no longer than the curve's rank and a period.
pub fn reach_suffices()
    ensures { ReachSuffices }
{}

/// Every turn is the time of a step, or the run's end.
pub fn turns_are_times()
    ensures { TurnsAreTimes }
{}

/// A stretch begins exactly where, before the run's end, a packet arrives and all that arrived before it is worked.
pub fn stretches_begin()
    ensures { StretchesBegin }
{}

/// Two stretches are one, or one ends before the other begins.
pub fn stretches_are_apart()
    ensures { StretchesAreApart }
{}

/// A break of a curve before a time is the start of one of the pieces that are written out up to that time.
pub fn breaks_are_starts()
    ensures { BreaksAreStarts }
{}

/// A lawful run keeps its premises exactly where it has no breach.
pub fn breaches_tell()
    ensures { BreachesTell }
{}

/// No two breaches are first.
pub fn first_is_one()
    ensures { FirstIsOne }
{}

/// No sum of a scan is too wide where its numbers stand by sizes of a gauge below 2^120.
pub fn marks_fit()
    ensures { MarksFit }
{}

/// Nor a step to a key.
pub fn keys_fit()
    ensures { KeysFit }
{}

/// A window between two points is short by one of a curve's segments exactly where the work in it is less than the
/// curve.
pub fn segments_tell()
    ensures { SegmentsTell }
{}
