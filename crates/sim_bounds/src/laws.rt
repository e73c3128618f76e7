//! Laws of the times of stated runs. A law is the contract of a function that does nothing.

ghost use Rattle.sim_bounds.specs.Laws.{DueStepsAreInTime, DueStepsAreOnGrid, StatesHaveTimes, SimulationsFit, HorizonsFit};

/// However far a stated run has come, no time that comes of a step that is due is past the horizon.
pub fn due_steps_are_in_time()
    ensures { DueStepsAreInTime }
{}

/// The times of a step that is due are on the grid of the setup.
pub fn due_steps_are_on_grid()
    ensures { DueStepsAreOnGrid }
{}

/// The times that the servers' states keep are on the grid, and none is past the horizon.
pub fn states_have_times()
    ensures { StatesHaveTimes }
{}

/// Where the simulation gauge of a network and a trace is below 2^120, no number of their simulation is too wide.
pub fn simulations_fit()
    ensures { SimulationsFit }
{}

/// Then no sum on the way to the horizon is too wide either: where one does not fit, the gauge is 2^120 or more.
pub fn horizons_fit()
    ensures { HorizonsFit }
{}
