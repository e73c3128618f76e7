ghost use Rattle.residuals.specs.packetiser.Growth.{PacketServiceGrows, PacketCurveGrows};
ghost use Rattle.residuals.specs.packetiser.Packets.{PacketCurveServes};

/// The curve that `packetised` answers serves the whole packets of each class that the curve serves, in every lawful
/// view.
pub fn packet_curve_serves()
    ensures { PacketCurveServes }
{}

/// Where a service is finite, is 0 at 0 and never falls, so is it less one packet, and the curve that `packetised`
/// answers; neither is anywhere below 0.
pub fn packet_service_grows()
    ensures service { PacketServiceGrows }
    ensures curve { PacketCurveGrows }
{}
