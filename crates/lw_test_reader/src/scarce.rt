//! Making a value while memory is refused: at each request in turn, once only there and once from there on.
use crate::refusing::{Refusal, Refusing};
use std::alloc::Global;

/// The result of making a value.
#[derive(Clone, Copy)]
pub enum Made {
    /// It failed because memory was refused.
    Refused,
    /// It was made as a whole.
    Whole,
}

/// A value that is made with an allocator that may refuse.
pub trait MadeByAllocator {
    /// Makes the value with `scarce`, from parts made with `ample`, which refuses nothing. Returns `None` if it fails
    /// for any other reason than refused memory.
    fn make<'a>(&self, ample: &'a Refusing, scarce: &'a Refusing) -> Option<Made>;
}

/// Makes the value while these requests are refused. Returns the result and the number of requests. Returns `None` if it
/// fails for any other reason than refused memory.
fn made_by<T: MadeByAllocator>(alloc: Global, made: &T, refusal: Refusal) -> Option<(Made, u64)> {
    let ample = Refusing::new(alloc, Refusal::Never);
    let scarce = Refusing::new(alloc, refusal);
    let made = made.make(&ample, &scarce)?;
    Some((made, scarce.count()))
}

/// Refuses each request for memory in turn: first only the n-th, then the n-th and all later ones. Returns the number of
/// requests if each refusal made the value fail, and the value was whole once no request was refused. Returns `None`
/// otherwise, and if there are more than 4,094 requests.
pub fn count_requests<T: MadeByAllocator>(alloc: Global, made: &T) -> Option<u64> {
    let mut refused = 0u64;
    for request in 1..4096u64 {
        let alone = made_by(alloc, made, Refusal::Alone(request))?;
        let onwards = made_by(alloc, made, Refusal::Onwards(request))?;
        match (alone, onwards) {
            ((Made::Refused, _), (Made::Refused, _)) => refused = refused.saturating_add(1),
            ((Made::Whole, requests), (Made::Whole, _)) if requests == refused => {
                return Some(refused);
            }
            _ => return None,
        }
    }
    None
}
