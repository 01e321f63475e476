// What a stack can be asked to do. No call has a `requires`: a full or empty stack is answered, never assumed away.
ghost use Rattle.std.specs.Prelude.{◌≡◌, ℕ, ◌-◌, ◌<◌, [], ◌∷◌, ◌++◌, length, take, is_ok, if◌then◌else◌, nat_lt, slice_index_or};
ghost use Rattle.stack.specs.Items.{items, capacity, item_at};

use crate::lifo::{Full, Stack};

fn slot<T: Copy>(slots: &[T], i: usize) -> T
    requires among_the_slots { i < length slots.now }
    ensures item_in_the_slot { result ≡ slice_index_or slots.now i result }
{
    slots[i]
}

// The slots are lent, so no type holds their number: each call that changes a stack says that its capacity stays.
impl<'a, T: Copy> Stack<'a, T> {
    /// An empty stack with room for as many items as there are slots.
    pub fn new(slots: &'a mut [T]) -> Stack<'a, T>
        ensures no_items { items result ≡ [] }
        ensures capacity_is_the_slots { capacity result ≡ length slots.old }
    {
        Stack { slots, len: 0 }
    }

    /// How many items there are.
    pub fn len(&self) -> usize
        ensures counts_the_items { result ≡ length (items self.now) }
    {
        let count = self.len;
        count
    }

    /// One item more on top; where there is no room the stack stays as it was.
    pub fn push(&mut self, item: T) -> Result<(), Full>
        ensures refused_only_when_full { is_ok result ≡ nat_lt (length (items self.old)) (capacity self.old) }
        ensures items_after { items self.new ≡ (if is_ok result then items self.old ++ item ∷ [] else items self.old) }
        ensures same_capacity { capacity self.new ≡ capacity self.old }
    {
        if self.len == self.slots.len() {
            return Err(Full);
        }
        self.slots[self.len] = item;
        self.len += 1;
        Ok(())
    }

    /// Takes the top item off; an empty stack stays empty.
    pub fn pop(&mut self) -> Option<T>
        ensures top_item { result ≡ item_at (items self.old) (length (items self.old) - 1) }
        ensures items_after { items self.new ≡ take (length (items self.old) - 1) (items self.old) }
        ensures same_capacity { capacity self.new ≡ capacity self.old }
    {
        if self.len == 0 {
            return None;
        }
        self.len -= 1;
        Some(self.slots[self.len])
    }

    /// The item at `i`, counted from the bottom; none beyond the top.
    pub fn get(&self, i: usize) -> Option<T>
        ensures item_at_the_place { result ≡ item_at (items self.now) i }
    {
        if i >= self.len {
            return None;
        }
        Some(slot(self.slots, i))
    }

    /// The item on top, which stays there.
    pub fn top(&self) -> Option<T>
        ensures top_item { result ≡ item_at (items self.now) (length (items self.now) - 1) }
    {
        if self.len == 0 {
            return None;
        }
        self.get(self.len - 1)
    }

    /// Takes items off until there are `n`; a stack that has no more stays as it was.
    pub fn truncate(&mut self, n: usize)
        ensures items_after { items self.new ≡ take n (items self.old) }
        ensures same_capacity { capacity self.new ≡ capacity self.old }
    {
        if n < self.len {
            self.len = n;
        }
    }
}
