//! Files of steps, a step a line with what is wanted beside it, for the programs that carry them out: rows, words, calls and
//! answers as words, and what fetches the bytes that steps tell.
#![tactic(auto)]

mod answers;
mod attributes;
mod calls;
mod escapes;
mod fetches;
mod keys;
mod parts;
mod programs;
mod rows;
mod seen;
mod spelling;
mod words;

pub use answers::{answer_of, answer_shown, kind_shown, refusal_shown};
pub use attributes::{attrs_shown, row_of};
pub use calls::{call_of, call_shown};
pub use escapes::{push_shown, shown};
pub use fetches::Fetches;
pub use keys::{key_of, key_of_parts, key_shown, map_of};
pub use parts::{
    name_list, name_of, names_shown, path_of, var_list, vars_shown, word_list, words_shown,
};
pub use programs::{Subjects, run_files, steps_of};
pub use rows::{Subject, Told, subject_of};
pub use seen::Seen;
pub use words::{behind, flag, mode, number, number_shown, plain, text, word};
