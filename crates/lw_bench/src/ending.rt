//! How a run of the program ends: what it writes to standard output, what it writes to standard error, and its exit status.
ghost use Rattle.std.specs.Prelude.{◌≡◌, Some, None, MatchOption};
ghost use Rattle.lw_bench.specs.Endings as endings;
ghost use Rattle.lw_bench.specs.Endings.{Reports, line_bytes};

use crate::fault::{BenchFault, fault_line, memory_line, status_of};
use lw_base::Text;
use std::alloc::Allocator;

/// A line without its line end.
#[derive(Drop)]
pub enum Line<A: Allocator> {
    /// A line that was rendered for a fault.
    Made(Text<A>),
    /// A constant line of the program.
    Fixed(&'static str),
}

/// How a run of the program ends.
#[derive(Drop)]
pub enum Ending<A: Allocator> {
    /// With these bytes on standard output, nothing on standard error, and this exit status.
    Answer(Text<A>, u8),
    /// With nothing on standard output, this line on standard error, and this exit status.
    Refusal(Line<A>, u8),
}

impl<A: Allocator> Line<A> {
    /// Borrows the line as a `str`.
    fn as_str(&self) -> &str
        ensures { result.now ≡ line_bytes self.now }
    {
        match self {
            Line::Made(text) => text.as_str(),
            Line::Fixed(text) => text,
        }
    }
}

impl<A: Allocator> Ending<A> {
    /// Returns the bytes for standard output.
    pub fn output(&self) -> &[u8]
        ensures { result.now ≡ endings.output_of self.now }
    {
        match self {
            Ending::Answer(text, _) => text.as_str().as_bytes(),
            Ending::Refusal(_, _) => &[],
        }
    }

    /// Returns the line for standard error, without its line end, or `None` if there is none.
    pub fn line(&self) -> Option<&str>
        ensures { MatchOption result (endings.line_of self.now ≡ None) (λ line. endings.line_of self.now ≡ Some line.now) }
    {
        match self {
            Ending::Answer(_, _) => None,
            Ending::Refusal(line, _) => Some(line.as_str()),
        }
    }

    /// Returns the exit status.
    pub fn status(&self) -> u8
        ensures { result ≡ endings.status_of self.now }
    {
        match self {
            Ending::Answer(_, status) | Ending::Refusal(_, status) => *status,
        }
    }
}

/// Returns the ending that reports a fault. If memory runs out for the fault's line, the ending reports that memory ran out.
pub fn refusal_of<A: Allocator + Copy>(alloc: A, fault: &BenchFault) -> Ending<A>
    ensures { Reports fault.now result }
{
    match fault_line(alloc, fault) {
        Ok(line) => Ending::Refusal(Line::Made(Text::from(line)), status_of(fault)),
        Err(_) => Ending::Refusal(Line::Fixed(memory_line()), status_of(&BenchFault::Memory)),
    }
}
