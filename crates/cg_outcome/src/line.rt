ghost use Rattle.std.specs.Prelude.{◌≡◌, ◌≤◌};
ghost use Rattle.cg_outcome.specs.declared.limits.TheConstants.{INPUT_BYTES};
ghost use Rattle.cg_outcome.specs.Outcome.{without_return, limit_of};
ghost use Rattle.cg_outcome.specs.Streaming.{held_limit};

use crate::limits::{INPUT_BYTES, LINE_BYTES, LINES};
use crate::status::Limit;

/// A line without the carriage return before its line feed.
pub fn without_return(line: &[u8]) -> &[u8]
    ensures { result.now ≡ without_return line.now }
{
    if line.ends_with(b"\r") {
        &line[..line.len() - 1]
    } else {
        line
    }
}

/// The limit that a line passes.
pub fn passed_limit(line: u64, len: usize, end: usize) -> Option<Limit>
    ensures { result ≡ limit_of line len end }
{
    if len > LINE_BYTES {
        Some(Limit::Line)
    } else if end > INPUT_BYTES {
        Some(Limit::Input)
    } else if line > LINES {
        Some(Limit::Lines)
    } else {
        None
    }
}

/// The limit that a line passes of which these bytes were taken.
pub fn held_limit(line: u64, at: usize, held: &[u8]) -> Option<Limit>
    requires { at ≤ INPUT_BYTES }
    ensures { result ≡ held_limit line at held.now }
{
    if held.is_empty() {
        None
    } else {
        passed_limit(line, held.len(), at + held.len())
    }
}
