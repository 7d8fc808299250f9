//! A box, split into its pointer and its allocator.
ghost use Rattle.std.specs.{Prelude.◌≡◌, Box.Ownership.box_owns};

use std::alloc::Allocator;
use std::marker::Model;

/// A box, split into its pointer and its allocator. It owns what the box owned.
pub struct Parts<T, A: Allocator> {
    /// Where the value lies.
    pub(crate) ptr: *mut T,
    /// The allocator that the memory is from.
    pub(crate) alloc: A,
    pub ghost value: { T },
}

impl<T, A: Allocator> Model for Parts<T, A> {
    ghost also_owns = { λ p. box_owns (A.dealloc_token p.alloc) T.row p.ptr p.value };
}

impl<T, A: Allocator> Parts<T, A> {
    /// Splits a box into its pointer and its allocator.
    pub(crate) fn of(b: Box<T, A>) -> Parts<T, A>
    where
        T: Drop,
        ensures { result.value ≡ b.value }
    {
        let (ptr, alloc) = Box::into_raw_with_allocator(b);
        Parts { ptr, alloc }
    }

    /// Makes the box of its pointer and its allocator again.
    pub(crate) fn into_box(self) -> Box<T, A>
        ensures { result.value ≡ self.value }
    {
        let Parts { ptr, alloc } = self;
        unsafe { Box::from_raw(alloc, ptr) }
    }
}
