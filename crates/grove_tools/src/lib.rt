//! The second top call, for what stands beside the five commands: words and the bytes of a source in, the bytes of a sink and a status out.
//! Each form of words is a variant of `Tool`, with a module that forms its answer and a file of definitions that says what it is.
#![tactic(auto)]

mod infer;
mod keep;
mod outcome;
mod relay;
mod report;
mod tool;
mod tool_form;
mod top;
mod undoing;
mod words;

pub use grove_calls::{Ending as ToolStatus, Fault, MOST_BYTES, exit_status};
pub use outcome::ToolOutcome;
pub use tool::{MOST_SENDERS, Tool};
pub use top::run_tool;
