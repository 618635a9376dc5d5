//! Copies that are equal to what they are copies of.
ghost use Rattle.std.specs.Prelude.{◌≡◌, Ok, IfOk};

use crate::items::Items;
use std::alloc::AllocError;

/// A type whose values can be copied while there is memory.
pub trait Duplicate: Drop {
    fn duplicate(&self) -> Result<Self, AllocError>
        ensures { IfOk result (λ copy. copy ≡ self.now) };
}

/// Both values, where both are there.
pub fn both<A: Drop, B: Drop>(
    first: Result<A, AllocError>,
    second: Result<B, AllocError>,
) -> Result<(A, B), AllocError>
    ensures first { IfOk result (λ both. first ≡ Ok both.0) }
    ensures second { IfOk result (λ both. second ≡ Ok both.1) }
{
    Ok((first?, second?))
}

impl<T: Duplicate> Duplicate for Option<T> {
    fn duplicate(&self) -> Result<Option<T>, AllocError> {
        match self {
            None => Ok(None),
            Some(x) => Ok(Some(x.duplicate()?)),
        }
    }
}

impl<T: Duplicate> Duplicate for Items<T> {
    fn duplicate(&self) -> Result<Items<T>, AllocError> {
        let items = self.as_slice();
        let mut all = Vec::with_capacity(self.allocator(), items.len())?;
        for x in items {
            all.push(x.duplicate()?)?;
        }
        Ok(Items::from_vec(all))
    }
}
