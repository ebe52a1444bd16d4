//! Memory that is wanting, at each request or at one.

ghost use Rattle.std.specs.Prelude.{◌≡◌, Err};
ghost use Rattle.std.specs.Allocator.{alloc_error};
ghost use Rattle.std.specs.Borrow.{ffalse};
ghost use Rattle.std.specs.contracts.impls.GlobalAllocator.TheImpl.{ghosts};

mod tries;

use std::alloc::{AllocError, Allocator, Global};
use std::cell::Cell;
pub use tries::{Requests, Try, requests_of};

/// Refuses each request.
#[derive(Clone, Copy)]
pub struct Refusing;

unsafe impl Allocator for Refusing {
    ghost dealloc_token = { λ _ _ _. ffalse };

    fn allocate(&self, _size: usize, _align: usize) -> Result<*mut u8, AllocError> {
        Err(AllocError)
    }

    unsafe fn deallocate(&self, _ptr: *mut u8, _size: usize, _align: usize) {}
}

/// Passes each request on to the heap, but refuses the one that it is set to refuse. What grows or shrinks makes a request too. A
/// reference to it is an allocator that can be copied.
#[derive(Drop)]
pub struct RefusesOne {
    heap: Global,
    /// How many requests there are up to the refused one; 0 where none is to be refused.
    left: Cell<u64>,
}

impl RefusesOne {
    /// Refuses none until it is set to refuse one.
    pub fn new(heap: Global) -> RefusesOne {
        RefusesOne {
            heap,
            left: Cell::new(0),
        }
    }

    /// The `n`-th request from here on is refused, where the next one is the first; no other is.
    pub fn refuse(&self, n: u64) {
        self.left.set(n);
    }

    /// Refuses none any more: whether the request that it was set to refuse had come.
    pub fn relent(&self) -> bool {
        self.left.replace(0) == 0
    }

    /// Counts a request: whether it is the refused one.
    fn counts(&self) -> bool {
        let left = self.left.get();
        self.left.set(left.saturating_sub(1));
        left == 1
    }

    /// What requests are passed on to.
    fn heap(&self) -> &Global {
        &self.heap
    }
}

/// The answer to the refused request.
fn refused() -> Result<*mut u8, AllocError>
    ensures { result ≡ Err alloc_error }
{
    Err(AllocError)
}

unsafe impl Allocator for RefusesOne {
    ghost dealloc_token = { λ memory. ghosts.dealloc_token memory.heap };

    fn allocate(&self, size: usize, align: usize) -> Result<*mut u8, AllocError> {
        if self.counts() {
            return refused();
        }
        let heap = self.heap();
        heap.allocate(size, align)
    }

    unsafe fn deallocate(&self, ptr: *mut u8, size: usize, align: usize) {
        let heap = self.heap();
        unsafe { heap.deallocate(ptr, size, align) }
    }
}
