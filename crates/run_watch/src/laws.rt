ghost use Rattle.run_watch.specs.FirstOf.{EarlierIsFirst};
ghost use Rattle.run_watch.specs.Sights.{SightsAreViews};

/// What is gathered of a server from the steps of a lawful run is what the server sees of it.
pub fn sights_are_views()
    ensures { SightsAreViews }
{}

/// The earlier of the firsts of two sets of breaches is the first of both, where those of the one set go before those of
/// the other at one time.
pub fn earlier_is_first()
    ensures { EarlierIsFirst }
{}
