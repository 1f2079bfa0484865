// Where texts are kept that came lately.

/// How many texts are kept, each in a place of its own.
pub const PLACES: usize = 256;

// The most bytes that a kept text has.
const LONGEST: usize = 32;

// A number that the bytes of a text tell.
fn sum_of(text: &[u8]) -> usize {
    let mut sum: usize = 0;
    for byte in text {
        sum = sum.wrapping_mul(31).wrapping_add(usize::from(*byte));
    }
    sum
}

/// The place in which a text is kept, which its bytes tell, from 0; `PLACES` where it is too long to be kept.
pub fn place_of(text: &[u8]) -> usize {
    if text.len() > LONGEST {
        PLACES
    } else {
        sum_of(text) % PLACES
    }
}
