ghost use Rattle.net_cells.specs.Laws.{OrderHasEachCell, OperandsComeFirst, OperandsAreCells, OperandsAreDifferent};
ghost use Rattle.net_cells.specs.Laws.{FormulasAreDetermined, TablesAgree, AnswersMeetEquations, FrontMeetsBelow, OneIsFirstOver, WorkIsOperators};
ghost use Rattle.net_cells.specs.Laws.{RefusalsArePlaced};
ghost use Rattle.net_cells.specs.MemoryEnds.{MemoryEndsSooner};

/// The order of the cells has exactly the cells of the network, each once.
pub fn order_has_each_cell()
    ensures { OrderHasEachCell }
{}

/// In the order of the cells each cell stands after those that it is made of.
pub fn operands_come_first()
    ensures { OperandsComeFirst }
{}

/// What a cell of a network is made of are cells of the network. The network has an order of its servers.
pub fn operands_are_cells()
    ensures { OperandsAreCells }
{}

/// A cell is made of different cells.
pub fn operands_are_different()
    ensures { OperandsAreDifferent }
{}

/// A formula means one value by a table, its answer is one too (want of memory apart), and a value that it answers is
/// its meaning. Both read the formula's own cells alone.
pub fn formulas_are_determined()
    ensures { FormulasAreDetermined }
{}

/// Where the making of a formula's value is refused has a place among its operators. Want of memory has fewer of them
/// counted than a limit of the same formula is at, so that no limit of a counted one can be told so.
pub fn refusals_are_placed()
    ensures { RefusalsArePlaced }
{}

/// Where memory is wanting in an analysis, the operator that is over its limit, if there is one, is not counted yet.
pub fn memory_ends_sooner()
    ensures { MemoryEndsSooner }
{}

/// Two tables that meet the equations of a network agree on each of its cells. The network has an order of its servers:
/// with a cycle there may be more than one table.
pub fn tables_agree()
    ensures { TablesAgree }
{}

/// A table with the answer of each cell meets the equations.
pub fn answers_meet_equations()
    ensures { AnswersMeetEquations }
{}

/// Where the cells before one have their answers, all that it depends on meets the equations.
pub fn front_meets_below()
    ensures { FrontMeetsBelow }
{}

/// At most one cell is the first over a limit, by one limit, and then no table has the answer of each cell.
pub fn one_is_first_over()
    ensures { OneIsFirstOver }
{}

/// The work of a cell is the number of operators on curves in its formula.
pub fn work_is_operators()
    ensures { WorkIsOperators }
{}
