ghost use Rattle.std.specs.Prelude.{◌≡◌, IfOk, vec_len};

use sheet::{Bays, Pair, Scale, Span};
use std::alloc::{AllocError, Global};

/// What calls on a sheet are lent: a list for results, and scratch numbers and amounts.
#[derive(Drop)]
pub struct Buffers {
    pub list: Vec<u16>,
    pub numbers: Vec<u16>,
    pub amounts: Vec<Pair<Span, Bays>>,
}

impl Buffers {
    /// Buffers of the lengths that calls need.
    pub fn new(heap: Global) -> Result<Buffers, AllocError>
        ensures { IfOk result (λ b. (vec_len b.list ≡ 128) × (vec_len b.numbers ≡ 32768) × (vec_len b.amounts ≡ 8192)) }
    {
        Ok(Buffers {
            list: vec![in heap; 0; 128]?,
            numbers: vec![in heap; 0; 32768]?,
            amounts: vec![in heap; Scale::begin(); 8192]?,
        })
    }
}
