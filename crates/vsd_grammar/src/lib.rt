//! What every reader of declarations and scripts stands on: the words, the cursor and the grammar.
#![tactic(auto)]

mod cause;
mod cursor;
mod decimal;
mod keyword;
mod laws;
mod loops;
mod naming;
mod skipping;
mod syntax_error;
#[cfg(test)]
mod tests;
mod token_class;
mod turn;

pub use cause::{Cause, Counted, Form, Listed};
pub use cursor::{Cursor, MOST_NODES, line_of, same_class, same_keyword};
pub use decimal::spelled_number;
pub use keyword::{Keyword, keyword_of};
pub use laws::{
    Production, complete, dead, goes_forward, keeps_causes, keeps_counts, keeps_reading,
    keeps_refusal, names_are_decided, reads_well, skips_pairs, sound, stands_in_list, unambiguous,
    words_have_keys,
};
pub use loops::{scan, separated, until};
pub use naming::{is_name, name, numbered_name, plain_words, spelled_name};
pub use skipping::skip;
pub use syntax_error::{Stop, SyntaxError};
pub use token_class::TokenClass;
pub use turn::Turn;
