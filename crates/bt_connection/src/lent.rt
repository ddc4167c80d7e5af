//! What is remembered of one connection, and is lent to the readers and writers before its socket.

use std::alloc::AllocError;
use std::cell::{BorrowMutError, RefCell, RefMut};

/// What is remembered of a connection. The next connection has the same memory, but finds nothing in it.
pub trait Renew {
    /// It remembers nothing, as at the beginning of a connection.
    ghost is_new: { Self → Type 0 };

    /// Forgets all. Takes no memory.
    fn renew(&mut self)
        ensures { is_new self.new };
}

/// What is remembered of one connection, in a cell that both its reader and its writer have. It was made new for that
/// connection: nothing can be lent in another way. What lies in the cell later no clause knows.
pub struct Lent<'a, T> {
    cell: &'a RefCell<T>,
}

impl<T> Clone for Lent<'_, T> {
    fn clone(&self) -> Result<Self, AllocError> {
        Ok(*self)
    }
}

impl<T> Copy for Lent<'_, T> {}

impl<'a, T: Renew> Lent<'a, T> {
    /// Makes what lies in the cell new, for a connection that begins, and lends it. Errors: the cell is in use, which
    /// no call of this crate brings about.
    pub fn new(cell: &'a RefCell<T>) -> Result<Self, BorrowMutError> {
        let mut guard = cell.try_borrow_mut()?;
        (&mut *guard).renew();
        Ok(Lent { cell })
    }
}

impl<'a, T> Lent<'a, T> {
    /// Borrows what lies in the cell. Errors: the cell is in use.
    pub fn try_borrow_mut(&self) -> Result<RefMut<'a, T>, BorrowMutError> {
        self.cell.try_borrow_mut()
    }
}
