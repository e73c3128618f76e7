//! The laws of the rationals as a field with an order, of the floor and the ceiling, and of the
//! lesser and the greater of two. Each function is a theorem: its contract is the law, its body is
//! empty.

ghost use Rattle.std.specs.Prelude.{ℕ, ℤ};
ghost use Rattle.rational.specs.Rational.{ℚ};
ghost use Rattle.rational.specs.FieldLaws.{IsField, IsOrdered, CrossProducts, LowestTerms, IsDense, IsArchimedean};
ghost use Rattle.rational.specs.Floor.{floor, ceil};
ghost use Rattle.rational.specs.MinMax.{min_q, max_q};
ghost use Rattle.rational.specs.RoundingLaws.{IsFloor, IsCeiling, IsLesser, IsGreater};

/// The rationals are an ordered field.
pub fn ordered_field()
    ensures field { IsField }
    ensures order { IsOrdered }
{}

/// Two fractions are equal, or in order, exactly where their cross products are.
pub fn cross_products()
    ensures { (a : ℤ) (d : ℕ) (b : ℤ) (e : ℕ) → CrossProducts a d b e }
{}

/// Each rational is the quotient of its two parts, which are in lowest terms.
pub fn lowest_terms()
    ensures { (x : ℚ) → LowestTerms x }
{}

/// Between any two rationals there is a third, and naturals pass every rational.
pub fn dense_and_archimedean()
    ensures dense { IsDense }
    ensures archimedean { IsArchimedean }
{}

/// The floor and the ceiling are the nearest whole numbers on either side.
pub fn floor_and_ceiling()
    ensures floor { (x : ℚ) → IsFloor x (floor x) }
    ensures ceiling { (x : ℚ) → IsCeiling x (ceil x) }
{}

/// The lesser and the greater of two are what they are called.
pub fn lesser_and_greater()
    ensures lesser { (x y : ℚ) → IsLesser x y (min_q x y) }
    ensures greater { (x y : ℚ) → IsGreater x y (max_q x y) }
{}
