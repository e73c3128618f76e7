//! What a deconvolution keeps, and that it exists: theorems, by their contracts.

ghost use Rattle.curve_deconv.specs.DeconvolutionLaws.{DeconvolutionKeeps, DeconvolutionIsFinite};

/// The deconvolution of a rising function rises. That of any function is at least the function less the second's value
/// at 0, and so nowhere below 0 where the function is not and the second is at most 0 at 0.
pub fn deconvolution_keeps()
    ensures { DeconvolutionKeeps }
{}

/// The deconvolution of finite curves, the first not the faster, is finite.
pub fn deconvolution_is_finite()
    ensures { DeconvolutionIsFinite }
{}
