ghost use Rattle.net_model.specs.CurveKinds.{KindsMayStand};

/// The curve of a rate after a latency, or of a gate, may be a server's; that of a token bucket, or of a stair, a
/// flow's.
pub fn kinds_may_stand()
    ensures { KindsMayStand }
{}
