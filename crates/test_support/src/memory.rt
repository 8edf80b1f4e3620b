//! An allocator that fails the requests that a test selects.
ghost use Rattle.std.specs.Prelude.{◌≡◌, ◌≤◌, ◌↔◌, IsTrue};

use std::alloc::{AllocError, Allocator};
use std::cell::Cell;

/// Counts the requests, and fails those numbered from `first` to `last`.
#[derive(Drop)]
struct Gate {
    requests: Cell<u64>,
    first: Cell<u64>,
    last: Cell<u64>,
}

impl Gate {
    /// Returns a gate that fails nothing, since no request has the number 0.
    fn open() -> Gate {
        Gate {
            requests: Cell::new(0),
            first: Cell::new(0),
            last: Cell::new(0),
        }
    }

    /// Fails these requests from now on, counted from 1.
    fn restart(&self, first: u64, last: u64) {
        self.requests.set(0);
        self.first.set(first);
        self.last.set(last);
    }

    /// Counts a request, and returns `true` if it is to fail.
    fn refuses(&self) -> bool {
        let number = self.requests.get().saturating_add(1);
        self.requests.set(number);
        is_between(number, self.first.get(), self.last.get())
    }
}

fn is_between(number: u64, first: u64, last: u64) -> bool
    ensures { IsTrue result ↔ ((first ≤ number) × (number ≤ last)) }
{
    first <= number && number <= last
}

/// An allocator over another one, which fails the requests that a test selects and counts them all.
/// A request is a call of `allocate`, and so is a growth of a `Vec`.
/// A test borrows it: a `&Refusing<B>` is an allocator too, and is `Copy`.
pub struct Refusing<B: Allocator> {
    inner: B,
    gate: Gate,
}

impl<B: Allocator> Refusing<B> {
    /// Returns an allocator that passes each request on to `inner`, until a test selects requests
    /// to fail.
    pub fn new(inner: B) -> Refusing<B>
        ensures { result.inner ≡ inner }
    {
        Refusing {
            inner,
            gate: Gate::open(),
        }
    }

    /// Fails only the request numbered `nth` from now on, counted from 1. At 0 none fails.
    pub fn refuse(&self, nth: u64) {
        self.gate.restart(nth, nth);
    }

    /// Fails every request from now on.
    pub fn refuse_all(&self) {
        self.gate.restart(1, u64::MAX);
    }

    /// Returns `true` if a request is still to fail, and none has failed yet.
    pub fn is_waiting(&self) -> bool {
        self.gate.requests.get() < self.gate.first.get()
    }

    /// Returns the number of requests since `new`, `refuse` or `refuse_all`, including failed ones.
    /// It stops at `u64::MAX`.
    pub fn requests(&self) -> u64 {
        self.gate.requests.get()
    }
}

impl<B: Allocator> Drop for Refusing<B> {
    fn drop(self) {
        let Self { inner: _, gate: _ } = self;
    }
}

unsafe impl<B: Allocator> Allocator for Refusing<B> {
    ghost dealloc_token = { λ heap ty ptr. B.dealloc_token heap.inner ty ptr };

    fn allocate(&self, size: usize, align: usize) -> Result<*mut u8, AllocError> {
        if self.gate.refuses() {
            return Err(AllocError);
        }
        self.inner.allocate(size, align)
    }

    unsafe fn deallocate(&self, ptr: *mut u8, size: usize, align: usize) {
        self.inner.deallocate(ptr, size, align);
    }
}
