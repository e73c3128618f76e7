//! Laws of windows. Each is the contract of a function that does nothing.

ghost use Rattle.curve_call.specs.Existing.{LowerWindowsExist, MadeWindowsExist, OverlaysExist, WindowSumsExist};

/// Two windows have stretches on which both go on with one line, and pieces of their sum, of the lower and the upper of
/// both and of what the first has above the second.
pub fn windows_exist()
    ensures overlays { OverlaysExist }
    ensures sums { WindowSumsExist }
    ensures made { MadeWindowsExist }
    ensures lower { LowerWindowsExist }
{}
