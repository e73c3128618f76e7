//! Laws over all fractions. Each function is a theorem: its contract is the law, its body is empty.

ghost use Rattle.fraction128.specs.Laws.{ReadsBack, SumOnGrid, DifferenceOnGrid, ProductOnGrid, QuotientOnGrid};
ghost use Rattle.fraction128.specs.Laws.{DivisorIsGreatest, MultipleIsLeast, FractionMultipleIsLeast};

/// What is printed of a fraction is read as that fraction.
pub fn prints_what_it_reads()
    ensures { ReadsBack }
{}

/// On a grid and within a bound that are small enough, no step of arithmetic is too wide.
pub fn steps_on_grid_fit()
    ensures sum { SumOnGrid }
    ensures difference { DifferenceOnGrid }
    ensures product { ProductOnGrid }
    ensures quotient { QuotientOnGrid }
{}

/// The greatest common divisor, and the least common multiples of whole numbers and of fractions, are what they are
/// called, also where they do not fit.
pub fn divisors_and_multiples()
    ensures divisor { DivisorIsGreatest }
    ensures multiple { MultipleIsLeast }
    ensures fraction { FractionMultipleIsLeast }
{}
