//! A value in a place of its own.
ghost use Rattle.std.specs.Prelude.{◌≡◌, IfOk};

use sh_base::NoMemory;
use std::alloc::Global;
use std::marker::Model;

/// A value in a place of its own, so that what holds it stays small: an action that comes behind that of a trap, or what runs in a new
/// process. A contract sees nothing but the value.
#[derive(Drop)]
pub struct Boxed<T> {
    inner: Box<T>,
}

impl<T> Model for Boxed<T> {
    ghost Value = { T };

    ghost coded = { T.code };

    ghost view = { λ b. b.inner.value };
}

impl<T> Boxed<T> {
    /// The value, lent. Takes no memory.
    pub fn get(&self) -> &T
        ensures { result.now ≡ self.now }
    {
        &self.inner
    }

    /// The value. Takes no memory.
    pub fn into_inner(self) -> T
        ensures { result ≡ self }
    {
        Box::into_inner(self.inner)
    }
}

impl<T: Drop> Boxed<T> {
    /// Puts a value in a place of its own. The only error is want of memory; the value is gone then.
    pub fn new(alloc: Global, value: T) -> Result<Self, NoMemory>
        ensures { IfOk result (λ boxed. boxed ≡ value) }
    {
        let inner = Box::new(alloc, value)?;
        Ok(Boxed { inner })
    }
}
