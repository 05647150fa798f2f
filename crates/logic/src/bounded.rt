//! A list with memory for all the elements that it may have, so that only its making asks for memory.

ghost use Rattle.logic.specs.Bounded.{place_of_next, with_next};
ghost use Rattle.std.specs.Prelude.{◌≡◌, ◌≤◌, [], IfOk, length, vec_capacity, vec_items, vec_len};

use std::alloc::{AllocError, Global};

// A list of at most N elements.
#[derive(Drop)]
pub(crate) struct Bounded<T, const N: usize> {
    items: Vec<T>,
    ghost room: { N ≤ vec_capacity items },
    ghost few: { vec_len items ≤ N },
}

impl<T: Copy, const N: usize> Bounded<T, N> {
    // An empty list, where memory for all its elements is found.
    pub(crate) fn new(heap: Global) -> Result<Bounded<T, N>, AllocError>
        ensures made { IfOk result (λ b. vec_items b.items ≡ []) }
    {
        let items = Vec::with_capacity(heap, N)?;
        Ok(Bounded { items })
    }

    // The elements, in order.
    pub(crate) fn as_slice(&self) -> &[T]
        ensures answer { result.now ≡ vec_items self.now.items }
        ensures limit { length result.now ≤ N }
    {
        self.items.as_slice()
    }

    // Puts an element at the end, and answers its place. Where there is no room the list stays as it is, and there is no place.
    pub(crate) fn push(&mut self, item: T) -> Option<usize>
        ensures answer { result ≡ place_of_next N (vec_items self.old.items) }
        ensures items { vec_items self.new.items ≡ with_next N item (vec_items self.old.items) }
    {
        let place = self.items.len();
        if place >= N {
            return None;
        }
        self.items.push_reserved(item);
        Some(place)
    }

    // Takes all elements away, and keeps the memory.
    pub(crate) fn clear(&mut self)
        ensures empty { vec_items self.new.items ≡ [] }
    {
        self.items.clear();
    }
}
