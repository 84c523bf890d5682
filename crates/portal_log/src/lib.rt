// Logs as text: their lines, and what the lines say.
#![tactic(auto)]

pub mod code;
pub mod digits;
pub mod head;
pub mod line;
pub mod name;
pub mod reader;
pub mod text;

// No log that is read has more bytes than this: `log_limit` in the specs.
pub const LIMIT: usize = 65_536;
