// What is printed of a refusal.

use crate::layer::Layer;

/// The number, the place and the layer of a refusal.
#[derive(Clone, Copy, Debug, PartialEq)]
pub struct Report {
    /// The number by which the refusal is known.
    pub number: u8,
    /// Where it was found; what is counted depends on the fault.
    pub place: usize,
    /// The layer where it arose.
    pub layer: Layer,
}
