//! What a text answers, or its first refusal, stage by stage: tokens, declarations, their conditions, the script, closed
//! types, tables, answers.
#![tactic(auto)]

mod prepared;
mod preparing;
mod rendering;
mod stages;
mod stopping;
mod texts;
mod writing;

pub use prepared::Prepared;
pub use rendering::render;
pub use stages::answer;
pub use stopping::Stopped;
pub use vsd_lines::LinesError;
pub use writing::write_answers;
