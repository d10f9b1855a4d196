//! An allocator for tests that refuses memory: it counts the requests to another allocator, and refuses one of them, or
//! one and all later ones. A request is a call of `allocate`: for a new block, or for a larger one in place of a block.
use std::alloc::{AllocError, Allocator, Global};
use std::cell::Cell;

/// The requests that are refused, by their number, which starts at 1.
#[derive(Clone, Copy)]
pub enum Refusal {
    /// No request is refused.
    Never,
    /// Only this request is refused.
    Alone(u64),
    /// This request and all later ones are refused.
    Onwards(u64),
}

/// The number of requests, and which of them are refused.
#[derive(Drop)]
struct Requests {
    refusal: Refusal,
    /// The number of requests so far, refused ones included.
    count: Cell<u64>,
}

impl Requests {
    /// Counts a request, and returns whether it is refused.
    fn refuse_next(&self) -> bool {
        let count = self.count.get().saturating_add(1);
        self.count.set(count);
        match self.refusal {
            Refusal::Never => false,
            Refusal::Alone(request) => count == request,
            Refusal::Onwards(request) => request <= count,
        }
    }
}

/// Wraps another allocator, some of whose requests are refused.
#[derive(Drop)]
pub struct Refusing<B: Allocator = Global> {
    inner: B,
    requests: Requests,
}

impl<B: Allocator> Refusing<B> {
    /// Wraps an allocator. There has been no request yet.
    pub fn new(inner: B, refusal: Refusal) -> Refusing<B> {
        let count = Cell::new(0);
        Refusing {
            inner,
            requests: Requests { refusal, count },
        }
    }

    /// Returns the number of requests so far, refused ones included.
    pub fn count(&self) -> u64 {
        self.requests.count.get()
    }
}

// If a block grows, the trait's default body requests a new block, copies, and frees the old one: this is one request.
unsafe impl<B: Allocator> Allocator for Refusing<B> {
    ghost dealloc_token = { λ a ty ptr. B.dealloc_token a.inner ty ptr };

    fn allocate(&self, size: usize, align: usize) -> Result<*mut u8, AllocError> {
        if self.requests.refuse_next() {
            return Err(AllocError);
        }
        self.inner.allocate(size, align)
    }

    unsafe fn deallocate(&self, ptr: *mut u8, size: usize, align: usize) {
        self.inner.deallocate(ptr, size, align);
    }

    unsafe fn shrink<T>(
        &self,
        ptr: *mut T,
        len: usize,
        old_cap: usize,
        new_cap: usize,
    ) -> Result<*mut T, AllocError> {
        self.inner.shrink(ptr, len, old_cap, new_cap)
    }
}
