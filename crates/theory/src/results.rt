//! All results of an action in a state.
ghost use Rattle.std.specs.Prelude.{IfOk};
ghost use Rattle.theory.specs.Results.{Listed};

use crate::listing::Listing;
use std::alloc::{AllocError, Global};
use words::ascending::Ascending;

/// Every t for which (s, a, t) is a step, in ascending order. It fails only for want of memory.
pub fn results<T: Listing>(heap: Global, theory: &T, s: u32, a: u32) -> Result<Vec<u32>, AllocError>
    ensures { IfOk result (λ v. Listed ((T.Judging.meaning theory.now).Step s a) 0 v.items) }
{
    Ascending::new(|least| theory.next(s, a, least), 0).collect(heap)
}
