// A list of at most N bytes, held in place. It is `Copy`, as a restricted list and the drawings of a script are; the kit's `ArrayVec` is not.
#![tactic(auto)]

ghost use Rattle.std.specs.Prelude.{◌≡◌, ◌≤◌, [], ◌∷◌, ◌++◌, length, take};

use std::marker::Model;

// The room after the bytes in order is zeros, so that a list is known by these bytes: a type that is `Copy` is known by what a contract sees of it.
#[derive(Clone, Copy)]
pub struct ByteList<const N: usize> {
    bytes: [u8; N],
    count: usize,
}

impl<const N: usize> Model for ByteList<N> {
    ghost use Rattle.std.specs.Prelude.{◌≡◌, ◌-◌, ◌≤◌, ◌++◌, ℕ, length, take, replicate};
    ghost use Rattle.std.proofs.Common.{ap, sym, ◌∙◌, arith, length-take-le};
    ghost use Rattle.byte_list.specs.ByteList.{ByteList as Items};

    ghost Value = { Items };

    ghost view = { λ l. record { items = take l.count l.bytes } };

    ghost invariant = { λ l. (l.count ≤ N) × (length l.bytes ≡ N) × (l.bytes ≡ take l.count l.bytes ++ replicate (N - l.count) 0) };

    ghost inverse = { λ v. record { bytes = v.items ++ replicate (N - length v.items) 0; count = length v.items } };

    ghost inverse_ok = { λ l h i. record {
      bytes = (ap (λ (k : ℕ). take l.count l.bytes ++ replicate (N - k) 0) (length-take-le l.count l.bytes (omega (arith, h.0, h.1))) ∙ sym h.2) i;
      count = length-take-le l.count l.bytes (omega (arith, h.0, h.1)) i;
    } };
}

impl<const N: usize> ByteList<N> {
    // The empty list.
    pub fn new() -> Self
        ensures { result.items ≡ [] }
    {
        ByteList {
            bytes: [0; N],
            count: 0,
        }
    }

    // Adds a byte at the end; a full list stays as it is.
    pub fn add(&mut self, byte: u8)
        ensures { self.new.items ≡ take N (self.old.items ++ byte ∷ []) }
    {
        if self.count < N {
            self.bytes[self.count] = byte;
            self.count += 1;
        }
    }

    // The bytes in order.
    pub fn as_slice(&self) -> &[u8]
        ensures items { result.now ≡ self.now.items }
        ensures fits { length result.now ≤ N }
    {
        &self.bytes[..self.count]
    }
}
