// Adding items, taking them out, and reading them.
ghost use Rattle.std.specs.Prelude.{◌≡◌, ◌+◌, ◌≤◌, [], ◌∷◌, ◌++◌, length, take, is_ok, if◌then◌else◌, nat_le, nat_lt, remove, slice_set, MatchOption};
ghost use Rattle.stack.specs.Held.{held};
ghost use Rattle.stack.specs.Items.{item_at};

use crate::array_vec::ArrayVec;
use crate::lifo::Full;

impl<T: Copy, const N: usize> ArrayVec<T, N> {
    /// No items; `blank` stands in the slots until they are used.
    pub fn new(blank: T) -> ArrayVec<T, N>
        ensures no_items { held result ≡ [] }
    {
        ArrayVec {
            slots: [blank; N],
            len: 0,
        }
    }

    /// One item more, behind the others; where there is no room nothing changes.
    pub fn push(&mut self, item: T) -> Result<(), Full>
        ensures refused_only_when_full { is_ok result ≡ nat_lt (length (held self.old)) N }
        ensures items_after { held self.new ≡ (if is_ok result then held self.old ++ item ∷ [] else held self.old) }
    {
        if self.len >= N {
            return Err(Full);
        }
        self.slots[self.len] = item;
        self.len += 1;
        Ok(())
    }

    /// All of these items more, behind the others; where there is no room for all of them nothing changes.
    pub fn extend_from_slice(&mut self, items: &[T]) -> Result<(), Full>
        ensures refused_only_without_room { is_ok result ≡ nat_le (length (held self.old) + length items.now) N }
        ensures items_after { held self.new ≡ (if is_ok result then held self.old ++ items.now else held self.old) }
    {
        if items.len() > N - self.len {
            return Err(Full);
        }
        let end = self.len + items.len();
        let slots = &mut self.slots[..];
        slots[self.len..end].copy_from_slice(items);
        self.len = end;
        Ok(())
    }

    /// One item more, before the others; where there is no room nothing changes.
    pub fn push_front(&mut self, item: T) -> Result<(), Full>
        ensures refused_only_when_full { is_ok result ≡ nat_lt (length (held self.old)) N }
        ensures items_after { held self.new ≡ (if is_ok result then item ∷ held self.old else held self.old) }
    {
        self.push(item)?;
        let slots = &mut self.slots[..];
        slots[0..self.len].rotate_right(1);
        Ok(())
    }

    /// The item at `i` becomes the first, and those before it move down; beyond the last nothing changes.
    pub fn move_to_front(&mut self, i: usize) -> Option<T>
        ensures item_at_the_place { result ≡ item_at (held self.old) i }
        ensures item_then_the_others { MatchOption result (held self.new ≡ held self.old) (λ x. held self.new ≡ x ∷ remove (held self.old) i) }
    {
        if i >= self.len {
            return None;
        }
        let item = self.slots[i];
        let slots = &mut self.slots[..];
        slots[0..i + 1].rotate_right(1);
        Some(item)
    }

    /// The item at `i` gives way to this one; beyond the last nothing changes.
    pub fn set(&mut self, i: usize, item: T)
        ensures only_that_item_changes { held self.new ≡ slice_set (held self.old) i item }
    {
        if i < self.len {
            self.slots[i] = item;
        }
    }

    /// Takes items off the end until there are `n`; a list that has no more stays as it was.
    pub fn truncate(&mut self, n: usize)
        ensures items_after { held self.new ≡ take n (held self.old) }
    {
        if n < self.len {
            self.len = n;
        }
    }

    /// The items, in their order.
    pub fn as_slice(&self) -> &[T]
        ensures items_in_their_order { result.now ≡ held self.now }
        ensures at_most_n { length result.now ≤ N }
    {
        let all = &self.slots[..];
        &all[0..self.len]
    }
}
