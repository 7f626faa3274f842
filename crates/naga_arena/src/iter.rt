//! Going over an arena.

ghost use Rattle.naga_arena.specs.Numbers.{largest_u32};
ghost use Rattle.std.specs.Prelude.{◌≡◌, ◌≤◌, length};
ghost use Rattle.std.specs.List.{enumerate_from};

use crate::handle::Handle;
use std::marker::{Model, PhantomData};

/// The items of an arena with their handles, in order. Contracts see the pairs that are left.
#[derive(Drop)]
pub struct Iter<'a, T, K> {
    next: u32,
    items: &'a [T],
    kind: PhantomData<K>,
}

impl<'a, T, K> Model for Iter<'a, T, K> {
    ghost use Rattle.naga_arena.specs.Numbers.{largest_u32};
    ghost use Rattle.std.specs.Prelude.{◌+◌, ◌≤◌, ℕ, List, length};
    ghost use Rattle.std.specs.Coded.{coded_list, coded×, coded_ℕ};
    ghost use Rattle.std.specs.List.{enumerate_from};

    ghost Value = { List (ℕ × T) };

    ghost coded = { coded_list (coded× coded_ℕ T.code) };

    ghost view = { λ s. enumerate_from s.next s.items.now };

    ghost invariant = { λ s. s.next + length s.items.now ≤ largest_u32 };
}

impl<'a, T, K> Iter<'a, T, K> {
    /// All items of an arena, from handle 0 on.
    pub fn new(items: &'a [T]) -> Iter<'a, T, K>
        requires { length items.now ≤ largest_u32 }
        ensures { result ≡ enumerate_from 0 items.entry.now }
    {
        Iter {
            next: 0,
            items,
            kind: PhantomData,
        }
    }
}

impl<'a, T, K> Iterator for Iter<'a, T, K> {
    ghost use Rattle.std.specs.Iterator.{YieldsFirstBy, item_count};

    type Item = (Handle<K>, &'a T);

    ghost next_gives = { YieldsFirstBy (λ p. (p.0, p.1.now)) (λ s. s) };

    ghost remaining = { item_count (λ s. s) };

    fn next(&mut self) -> Option<(Handle<K>, &'a T)> {
        let (first, rest) = self.items.split_first()?;
        let handle = Handle::new(self.next);
        self.next += 1;
        self.items = rest;
        Some((handle, first))
    }
}
