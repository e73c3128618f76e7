//! Curves, and their value at a time.

ghost use Rattle.std.specs.Prelude.{◌≡◌, ◌↔◌, pos, length, IsOk, IfOk, IfErr, IsTrue};
ghost use Rattle.rational.specs.Rational.{int, ◌≤ℚ◌};
ghost use Rattle.upp_curve.specs.Curve.{SpecCurve, value_at, HasSameValues};
ghost use Rattle.upp_curve.specs.Curves.{IsCurve};
ghost use Rattle.min_plus.specs.Functions.{IsFinite, IsRising};
ghost use Rattle.upp_curve.specs.Steady.{rate};
ghost use Rattle.upp_curve.specs.Steps.{IsWideValueAt};

use crate::affine_segment::Piece;
use crate::reading::{read, read_past};
use crate::same::{same_pieces, same_tail};
use crate::shape::{are_finite, last_slope, period_end, rise_to};
use fraction128::{Ext, Frac, Wide};
use rational::Extended;
use std::alloc::{AllocError, Global};
use std::cmp::Ordering;
use std::marker::Model;

/// How a curve goes on past its rank.
#[derive(Debug, Clone, Copy)]
pub enum Tail {
    /// From the rank on it repeats: each `period` later it is `rise` higher.
    Periodic {
        rank: Frac,
        period: Frac,
        rise: Frac,
    },
    /// It goes on with its last line.
    Affine {
        rank: Frac,
    },
    /// It is infinite after the rank.
    Infinite {
        rank: Frac,
    },
}

/// A function of time from 0 on, as pieces and a tail (Bouillard, Boyer and Le Corronc: an ultimately pseudo-periodic
/// function). It is kept in normal form, so that curves with one value at each time are one, and readable, so that its
/// rate and whether it rises are always known.
#[derive(Drop)]
pub struct Curve {
    pieces: Vec<Piece>,
    tail: Tail,
}

impl Model for Curve {
    ghost use Rattle.upp_curve.specs.Curve.{SpecCurve};
    ghost use Rattle.upp_curve.specs.Curves.{IsCurve};

    ghost Value = { SpecCurve };

    ghost view = { λ a. record { pieces = a.pieces.items; tail = a.tail } };

    ghost invariant = { λ a. IsCurve record { pieces = a.pieces.items; tail = a.tail } };
}

impl Curve {
    /// The curve of pieces and a tail that are in normal form and readable.
    pub fn from_normal(pieces: Vec<Piece>, tail: Tail) -> Curve
        requires { IsCurve record { pieces = pieces.items; tail = tail } }
        ensures { result ≡ record { pieces = pieces.items; tail = tail } }
    {
        Curve { pieces, tail }
    }

    /// The value at a time from 0 on, by binary search in the pieces. Refused only where a step does not fit: past the
    /// rank of a periodic tail t - rank, its quotient by the period, the whole part n of that times the period, t less
    /// that, the steps of the line there, n times the rise and the sum with that; else the steps of the line there.
    pub fn value_at(&self, t: Frac) -> Result<Ext, Wide>
        requires { int (pos 0) ≤ℚ t }
        ensures value { IfOk result (λ v. v ≡ value_at self.now t) }
        ensures wide { IfErr result (IsWideValueAt self.now t) }
    {
        match self.tail {
            Tail::Affine { rank: _ } => read(&self.pieces, t),
            Tail::Infinite { rank } => match t.cmp(&rank) {
                Ordering::Greater => Ok(Extended::Inf),
                _ => read(&self.pieces, t),
            },
            Tail::Periodic { rank, period, rise } => match t.cmp(&rank) {
                Ordering::Greater => read_past(&self.pieces, rank, period, rise, t),
                _ => read(&self.pieces, t),
            },
        }
    }

    /// The long-run rate: rise over period, the slope of an affine tail, and infinity of an infinite one. It is never
    /// refused, since a curve is readable.
    pub fn rate(&self) -> Result<Ext, Wide>
        ensures value { IfOk result (λ r. r ≡ rate self.now) }
        ensures fits { IsOk result }
    {
        match self.tail {
            Tail::Periodic {
                rank: _,
                period,
                rise,
            } => Ok(Extended::Fin(Frac::div(rise, period)?)),
            Tail::Affine { rank: _ } => Ok(last_slope(&self.pieces)),
            Tail::Infinite { rank: _ } => Ok(Extended::Inf),
        }
    }

    /// How many pieces the curve is kept as.
    pub fn piece_count(&self) -> u64
        ensures { result ≡ length self.now.pieces }
    {
        self.pieces.len() as u64
    }

    /// Whether the value at each time from 0 on is a number.
    pub fn is_finite(&self) -> bool
        ensures { IsTrue result ↔ IsFinite (value_at self.now) }
    {
        match self.tail {
            Tail::Infinite { rank: _ } => false,
            _ => are_finite(&self.pieces),
        }
    }

    /// Whether the value never falls.
    pub fn is_rising(&self) -> bool
        ensures { IsTrue result ↔ IsRising (value_at self.now) }
    {
        match self.tail {
            Tail::Periodic { rank, period, rise } => {
                let end = period_end(&self.pieces, rank, period, rise);
                rise_to(&self.pieces, Some(end))
            }
            _ => rise_to(&self.pieces, None),
        }
    }

    /// The same curve again.
    pub fn copy(&self) -> Result<Curve, AllocError>
        ensures { IfOk result (λ c. c ≡ self.now) }
    {
        Ok(Curve {
            pieces: self.pieces.clone()?,
            tail: self.tail,
        })
    }

    /// What every curve keeps: what its contract says. It does nothing.
    pub fn keeps(&self)
        ensures { IsCurve self.now }
    {
        let _tail = self.tail;
    }

    /// The pieces.
    #[inline]
    pub fn pieces(&self) -> &[Piece]
        ensures pieces { result.now ≡ self.now.pieces }
        ensures kept { IsCurve self.now }
    {
        &self.pieces
    }

    /// The tail.
    #[inline]
    pub fn tail(&self) -> &Tail
        ensures tail { result.now ≡ self.now.tail }
        ensures kept { IsCurve self.now }
    {
        &self.tail
    }

    /// The allocator of the pieces.
    #[inline]
    pub fn allocator(&self) -> Global
        ensures { IsCurve self.now }
    {
        *self.pieces.allocator()
    }

    // Whether the two are stored alike.
    fn same_fields(&self, other: &Curve) -> bool
        ensures fields { IsTrue result ↔ (self.now ≡ other.now) }
        ensures kept { IsCurve self.now × IsCurve other.now }
    {
        same_tail(self.tail, other.tail) && same_pieces(&self.pieces, &other.pieces)
    }
}

/// Whether two curves have one value at each time from 0 on. It compares what is stored and computes nothing.
pub fn equal(f: &Curve, g: &Curve) -> bool
    ensures { IsTrue result ↔ HasSameValues f.now g.now }
{
    f.same_fields(g)
}
