use fraction128::Frac;

/// A packet that enters, in bits.
#[derive(Clone, Copy)]
pub struct Entering {
    pub time: Frac,
    pub bits: u32,
}
