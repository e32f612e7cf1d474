// Why bytes are no slot.

/// Why bytes are no slot: their seal does not fit, or it does and what they say breaks the format.
#[derive(Clone, Copy, Debug, PartialEq, Eq)]
pub enum Refusal {
    NoSeal,
    Malformed,
}
