//! The laws. Each is the contract of a function that does nothing.

ghost use Rattle.existence.specs.tables.Networks.{TablesOrLimits, NetworksHaveTables};
ghost use Rattle.existence.specs.tables.Found.{ServicesExist, NumberSumsExist};
ghost use Rattle.existence.specs.tables.Formulas.{CurveSumsExist, FormulasHaveAnswers};
ghost use Rattle.existence.specs.tables.Tables.{TablesExist};

/// An accepted network whose curves are in normal form and readable, and whose servers have an order, has a table whose
/// cells are all answered, or a cell that is the first over a limit.
pub fn tables_or_limits()
    ensures { TablesOrLimits }
{}

/// Such a network with no cell over a limit has a table that meets its equations.
pub fn networks_have_tables()
    ensures { NetworksHaveTables }
{}

/// The calls that make the service of a priority queue or of a deficit round robin queue have an answer that is not
/// want of memory, where each call alone has one.
pub fn services_exist()
    ensures { ServicesExist }
{}

/// A sum of numbers has an answer.
pub fn number_sums_exist()
    ensures { NumberSumsExist }
{}

/// Several curves have a sum, where any two have one, or one of the calls is over a limit.
pub fn curve_sums_exist()
    ensures { CurveSumsExist }
{}

/// A formula has an answer that is not want of memory, where its cells have values and each of its calls has an answer.
pub fn formulas_have_answers()
    ensures { FormulasHaveAnswers }
{}

/// A network whose servers have an order has a table whose cells are all answered, or a cell that is the first over a
/// limit, where the formula of each cell has an answer by a table of the cells before it.
pub fn tables_exist()
    ensures { TablesExist }
{}
