// Lines, words and numbers of a text, and text put into a lent buffer. Every function is total: none has a `requires`.
#![tactic(auto)]

mod numbers;
mod output;
mod words;

pub use numbers::{NotNumber, decimal, digit, hex};
pub use output::{put_byte, put_bytes, put_decimal, put_hex_byte, put_hex_word};
pub use words::{after_line, after_word, first_line, first_word};
