//! Cases as lines of text: what the programs `vectors`, `botcases` and `stepcases` have in common.
//!
//! A line of standard input is a case, and the line of standard output for it is its answer. A case is words separated
//! by spaces. A word is bare, or text between single quotes (which may hold spaces, or nothing), or `x:` and bytes in
//! hexadecimal. Its first word says what is asked. Empty lines and lines that begin with `#` are skipped.
//!
//! A program answers its cases by an impl of [`Cases`], and hands it to [`answer_input`], whose value its `main`
//! returns. Answers go to a [`Sink`], which shows a byte that is not printable ASCII as `\x` and two hexadecimal
//! digits.
//!
//! A case of several steps has a line for each. A program makes them by an impl of [`StepMaker`], and hands it to
//! [`play_input`]. A step splits its line into words itself, and answers with any number of lines. Lines that begin with
//! `#` are printed.
//!
//! A line that is no case ends the program: it reports the line on standard error and ends with status 1, as for more
//! than 1,048,576 bytes of input. It ends with status 3 if reading or writing fails, and with 4 if memory runs out. It
//! then writes no answers, except those written before a write failed.
//!
//! ```text
//! struct Echoes;
//! impl Cases for Echoes {
//!     fn answer(&self, _alloc: Global, words: &[Text], out: &mut Sink) -> Result<(), CaseError> {
//!         let [only] = words else {
//!             return Err(BAD_WORDS);
//!         };
//!         out.put(only.as_bytes());
//!         Ok(())
//!     }
//! }
//! answer_input(&rt, "echoes", &Echoes)     // the case 'two words' is answered: two words
//! ```
#![tactic(auto)]

mod answering;
mod lines;
mod sink;
mod stop;
mod values;
mod words;

pub use crate::answering::{Cases, StepMaker, answer_input, play_input};
pub use crate::lines::line_shown;
pub use crate::sink::Sink;
pub use crate::stop::{BAD_NUMBER, BAD_WORDS, CaseError, CaseFault, NO_SUCH_CASE, NOT_MADE};
pub use crate::values::{put_change, put_record};
pub use crate::words::{cut, number, zone_of};
