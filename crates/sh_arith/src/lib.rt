//! Arithmetic of the shell: expressions of C on signed numbers of 64 bits (XCU 2.6.4).
#![tactic(auto)]

mod constant;
mod error;
mod frame;
mod laws;
mod lex;
mod names;
mod operator;
mod read;
mod row;
mod run;
mod step;
mod token;
mod worth;

pub use error::ArithErr;
pub use frame::{Frame, Reader};
pub use laws::one_reading;
pub use names::{Names, SetErr};
pub use operator::{Operator, Sign};
pub use step::Instruction;
pub use token::Token;
pub use worth::value;
