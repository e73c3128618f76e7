//! The laws of the rationals with infinity. Each function is a theorem: its contract is the law, its body is empty.

ghost use Rattle.rational.specs.Extended.{Ext, min_ext, max_ext};
ghost use Rattle.rational.specs.ExtendedLaws.{IsTotalOrder, IsOrderedMonoid, IsMeet, IsJoin, IsLattice};

/// The rationals with infinity have a total order, and infinity is the greatest.
pub fn extended_order()
    ensures { IsTotalOrder }
{}

/// Their sums commute, associate and keep the order, and 0 is neutral.
pub fn extended_sums()
    ensures { IsOrderedMonoid }
{}

/// The lesser and the greater of two are their greatest lower and least upper bound.
pub fn extended_lattice()
    ensures lesser { (x y : Ext) → IsMeet x y (min_ext x y) }
    ensures greater { (x y : Ext) → IsJoin x y (max_ext x y) }
    ensures laws { IsLattice }
{}
