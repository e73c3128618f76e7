//! What two elements of operands make.

ghost use Rattle.upp_curve.specs.affine_segment.Elements.{IsProper, IsConvolved};
ghost use Rattle.upp_curve.specs.affine_segment.MadeParts.{AreParts};
ghost use Rattle.element_envelope.specs.ElementRoom.{HaveRoom};

use upp_curve::affine_segment::{Element, Joined, element_conv};

/// The convolution of two elements of operands, within sizes under which no step is too wide.
pub fn joined(a: &Element, b: &Element) -> Joined
    requires left { IsProper a.now }
    requires right { IsProper b.now }
    requires room { HaveRoom a.now b.now }
    ensures convolved { IsConvolved a.now b.now result }
    ensures parts { AreParts a.now b.now result }
{
    match element_conv(a, b) {
        Ok(joined) => joined,
        Err(_) => unreachable!(),
    }
}
