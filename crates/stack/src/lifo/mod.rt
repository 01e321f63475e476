// The struct stands alone in its file: the definitions in specs/ name it, and what its ghost field imports must not lead back to them.
ghost use Rattle.std.specs.Prelude.{◌≤◌, length};

mod methods;

// The caller lends the slots, by a rule of the project, so their length stands beside them.
/// A stack in a lent slice: the first `len` slots are its items, the last of them on top.
#[derive(Drop)]
pub struct Stack<'a, T> {
    slots: &'a mut [T],
    len: usize,
    ghost sound: { len ≤ length slots.now },
}

/// The stack has no room for one more item.
#[derive(Clone, Copy, PartialEq, Eq, Debug)]
pub struct Full;
