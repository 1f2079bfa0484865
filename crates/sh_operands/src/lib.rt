//! What builtins make of their operands alone: the format and the numbers of `printf`, what `test` decides, counts, and
//! lists of words (XCU 2.14 and 4). It asks nothing and writes nothing.
#![tactic(auto)]

mod convert;
mod count;
mod format;
mod laws;
mod length;
mod made;
mod number;
mod primary;
mod print;
mod verdict;
mod words;

pub use count::count_of;
pub use format::{Conversion, Format, Piece, Specifier, pieces};
pub use laws::{one_format, one_output};
pub use length::measured;
pub use made::Made;
pub use number::{Number, number_of};
pub use primary::{Operator, Primary, follows, holds_of};
pub use print::printed;
pub use verdict::{Verdict, decides};
pub use words::{copies, first_misnamed, joined};
