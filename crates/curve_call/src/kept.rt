ghost use Rattle.std.specs.Prelude.{◌≡◌, IfOk};
ghost use Rattle.upp_curve.specs.Curves.{IsCurve};

use upp_curve::Curve;
use upp_limits::OpFault;

/// The answer of a call, as it is, with what the type of its curve keeps: a contract that says what curve a call
/// makes needs that it is one.
pub fn intact(answer: Result<Curve, OpFault>) -> Result<Curve, OpFault>
    ensures same { result ≡ answer }
    ensures kept { IfOk result IsCurve }
{
    match answer {
        Ok(c) => {
            c.keeps();
            Ok(c)
        }
        Err(fault) => Err(fault),
    }
}
