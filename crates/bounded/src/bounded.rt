//! The items, and the operations on them.
ghost use Rattle.std.specs.Prelude.{◌≡◌, ◌≤◌, List, [], ◌∷◌, length};
ghost use Rattle.bounded.specs.Items.{extended};

use std::marker::Model;

/// Up to `N` items, in the order in which they came. The library's `ArrayVec` is not `Copy`, and what is built on this
/// has to be.
#[derive(Clone, Copy)]
pub struct Bounded<T, const N: usize> {
    places: [T; N],
    count: usize,
}

impl<T, const N: usize> Model for Bounded<T, N> {
    ghost use Rattle.std.specs.Prelude.{◌≡◌, ◌≤◌, ◌++◌, length, take, drop};
    ghost use Rattle.std.proofs.Common.{arith, take-append-drop, length-take-le};
    ghost use Rattle.bounded.specs.Items.{Bounded as Seen, bounded_code};

    ghost Value = { Seen T };

    ghost coded = { bounded_code T.code };

    ghost view = { λ b. record { items = take b.count b.places; spare = drop b.count b.places } };

    ghost invariant = { λ b. (b.count ≤ N) × (length b.places ≡ N) };

    ghost inverse = { λ s. record { places = s.items ++ s.spare; count = length s.items } };

    ghost inverse_ok = { λ b h i. record {
      places = take-append-drop b.count b.places i;
      count = length-take-le b.count b.places (omega (arith, h.0, h.1)) i;
    } };
}

impl<T: Copy, const N: usize> Bounded<T, N> {
    /// No items yet.
    pub fn new() -> Self
    where
        T: Default,
        ensures { result.items ≡ [] }
    {
        Bounded {
            places: [T::default(); N],
            count: 0,
        }
    }

    /// The items.
    pub fn as_slice(&self) -> &[T]
        ensures value { result.now ≡ self.now.items }
        ensures fits { length result.now ≤ N }
    {
        &self.places[..self.count]
    }

    /// One item more; where there is no room for it, it is left out.
    pub fn push(&mut self, item: T)
        ensures { self.new.items ≡ extended N self.old.items (item ∷ []) }
    {
        if self.count < N {
            self.places[self.count] = item;
            self.count += 1;
        }
    }

    /// A run of items more; where there is no room for all of it, none of it is taken.
    pub fn extend_from_slice(&mut self, run: &[T])
        ensures { self.new.items ≡ extended N self.old.items run.now }
    {
        if run.len() <= N - self.count {
            let end = self.count + run.len();
            let places = &mut self.places[..];
            places[self.count..end].copy_from_slice(run);
            self.count = end;
        }
    }
}
