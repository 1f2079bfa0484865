// A source and where it goes.
use rk_base::Bytes;

/// A source and its target, as operands.
#[derive(Drop)]
pub struct Pair {
    pub source: Bytes,
    pub target: Bytes,
}
