//! The public call: answers a request on a text.
ghost use Rattle.std.specs.Prelude.{IfOk, IfErr};
ghost use Rattle.lw_bench.specs.LitmusTests.{litmus_test_of};
ghost use Rattle.lw_bench.specs.Lists.{IsReachedOnMachine, IsReachedOverCaches};
ghost use Rattle.lw_bench.specs.Outputs.{IsOutputOf};
ghost use Rattle.lw_beyond.specs.Requests.{IsListedBy, IsMadeFor, RefusesText, IsNoDevice};

use crate::fault::BeyondFault;
use crate::lists::{Method, Request, make};
use lw_base::Text;
use lw_bench::{every_test_has_its_program, read_test};
use std::alloc::Allocator;

/// The output of a request, and how its list was made.
#[derive(Drop)]
pub struct Answer<A: Allocator> {
    /// The bytes of the output.
    pub text: Text<A>,
    /// How the list was made.
    pub method: Method,
}

/// Reads a text as a test, and renders the output of a request. Fails if the text is no test, memory runs out, or a search exceeds the
/// budget.
fn answer_text<A: Allocator + Copy>(
    alloc: A,
    request: &Request,
    text: &[u8],
) -> Result<Answer<A>, BeyondFault>
    ensures made { IfOk result (λ a. IsOutputOf
        (λ test made. IsMadeFor request.now.output test made × IsListedBy test request.now a.method) text.now a.text) }
    ensures refused { IfErr result (RefusesText request.now text.now) }
    ensures device { IfErr result IsNoDevice }
{
    let test = read_test(alloc, text)?;
    let made = make(alloc, &test, request);
    drop(test);
    let (text, method) = made?;
    Ok(Answer { text, method })
}

/// Answers a request on a text: renders the report, the states with schedules, or the marked states, without the limits of lists. Fails if
/// the text is no test, memory runs out, or a search exceeds the budget.
pub fn answer_request<A: Allocator + Copy>(
    alloc: A,
    request: &Request,
    text: &[u8],
) -> Result<Answer<A>, BeyondFault>
    // The bytes are a test, and the output is that of exactly its outcomes; the list was made by the method that is
    // returned.
    ensures made { IfOk result (λ a. IsOutputOf
        (λ test made. IsMadeFor request.now.output test made × IsListedBy test request.now a.method) text.now a.text) }
    // A fault is true of the text, of a cell, or of the states of the test's x86 program.
    ensures refused { IfErr result (RefusesText request.now text.now) }
    // The outcomes of every test of the bytes are those that its x86 program reaches on the machine.
    ensures machine { IsReachedOnMachine text.now }
    // They are also those that it reaches over caches of each protocol.
    ensures caches { IsReachedOverCaches text.now }
    // A fault is never the failure of a device.
    ensures device { IfErr result IsNoDevice }
{
    every_test_has_its_program();
    answer_text(alloc, request, text)
}
