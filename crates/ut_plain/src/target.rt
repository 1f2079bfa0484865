// Where `tee` writes.
use rk_base::Bytes;

/// A place as error texts name it, and the number that stands for it.
#[derive(Debug, Drop)]
pub struct Target {
    pub place: Bytes,
    pub number: u64,
}
