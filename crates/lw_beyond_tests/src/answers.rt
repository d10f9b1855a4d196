//! Worked answers, by orders and by a search.
use lw_bench::BenchFault;
use lw_beyond::{BeyondFault, Method, Output, Request, answer_request};
use std::alloc::Global;

/// Store buffering.
const STORE_BUFFERING: &str =
    "SRC SB {} P0|P1; x := 1 | y := 1; r0 := y | r0 := x; exists (0:r0=0 /\\ 1:r0=0)";

/// Its report.
const REPORT: &str =
    "Test SB Allowed\nStates 3\n0:r0=0; 1:r0=1;\n0:r0=1; 1:r0=0;\n0:r0=1; 1:r0=1;\nNo\nPositive: 0 Negative: 3\nCondition exists (0:r0=0 /\\ 1:r0=0)\nObservation SB Never 0 3\n";

/// Five stores to one location by each of four threads: more orders than a list takes.
const MANY_ORDERS: &str =
    "SRC W5 {} P0|P1|P2|P3; x := 1 | x := 2 | x := 3 | x := 4; x := 1 | x := 2 | x := 3 | x := 4; x := 1 | x := 2 | x := 3 | x := 4; x := 1 | x := 2 | x := 3 | x := 4; x := 1 | x := 2 | x := 3 | x := 4; exists (x=4)";

/// Its report.
const MANY_REPORT: &str =
    "Test W5 Allowed\nStates 4\nx=1;\nx=2;\nx=3;\nx=4;\nOk\nPositive: 1 Negative: 3\nCondition exists (x=4)\nObservation W5 Sometimes 1 3\n";

/// Returns a request for the report of the states.
fn states(search: bool, budget: usize) -> Request {
    Request {
        output: Output::States,
        search,
        budget,
    }
}

/// Returns the method by which a request is answered, or `None` if the answer is not this report.
fn method_of(alloc: Global, request: &Request, text: &str, report: &str) -> Option<Method> {
    match answer_request(alloc, request, text.as_bytes()) {
        Ok(answer) => (answer.text.as_str() == report).then_some(answer.method),
        Err(_) => None,
    }
}

/// Requests a search, and returns the number of states that it visits, or `None` if the answer is not this report.
fn states_visited(alloc: Global, text: &str, report: &str) -> Option<usize> {
    match method_of(alloc, &states(true, 10_000_000), text, report)? {
        Method::Search(count) => Some(count),
        Method::Orders => None,
    }
}

/// Returns whether a request is refused for this budget.
fn exceeds(alloc: Global, request: &Request, text: &str) -> bool {
    match answer_request(alloc, request, text.as_bytes()) {
        Err(BeyondFault::Budget(budget)) => budget == request.budget,
        _ => false,
    }
}

#[test]
fn test_within_the_limits_is_listed_by_orders(rt: HostRuntime) {
    let method = method_of(rt.alloc(), &states(false, 0), STORE_BUFFERING, REPORT);
    assert!(rt; method == Some(Method::Orders));
}

#[test]
fn search_is_made_if_requested(rt: HostRuntime) {
    let count = states_visited(rt.alloc(), STORE_BUFFERING, REPORT);
    assert!(rt; count.is_some());
}

#[test]
fn test_past_the_limits_is_listed_by_a_search(rt: HostRuntime) {
    let method = method_of(
        rt.alloc(),
        &states(false, 10_000_000),
        MANY_ORDERS,
        MANY_REPORT,
    );
    assert!(rt; matches!(method, Some(Method::Search(_))));
}

#[test]
fn budget_is_exact(rt: HostRuntime) {
    let Some(count) = states_visited(rt.alloc(), STORE_BUFFERING, REPORT) else {
        assert!(rt; false);
        return;
    };
    let enough = method_of(rt.alloc(), &states(true, count), STORE_BUFFERING, REPORT);
    assert!(rt; enough == Some(Method::Search(count)));
    assert!(rt;
        exceeds(
            rt.alloc(),
            &states(true, count.saturating_sub(1)),
            STORE_BUFFERING
        )
    );
    assert!(rt; exceeds(rt.alloc(), &states(true, 0), STORE_BUFFERING));
    assert!(rt; exceeds(rt.alloc(), &states(false, 100), MANY_ORDERS));
}

#[test]
fn faults_of_the_text_are_those_of_lw(rt: HostRuntime) {
    let fault = answer_request(rt.alloc(), &states(true, 10), b"SRC").err();
    assert!(rt; matches!(fault, Some(BeyondFault::Bench(BenchFault::Text(_)))));
}
