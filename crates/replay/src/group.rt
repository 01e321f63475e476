// Where the stored sheets come from.
ghost use Rattle.std.specs.Prelude.{◌≡◌};
ghost use Rattle.replay.specs.Lists.{group_of};

/// Where a stored sheet comes from.
#[derive(Clone, Copy, PartialEq, Eq, Debug)]
pub enum Group {
    /// a lookup that the rules name as a sample
    Sample,
    /// a case where the rules, the public pages or ways to read them differ
    Corner,
    /// chosen out of many generated sheets
    Chosen,
}

impl Group {
    /// The group with a number in a header.
    pub fn of(number: u16) -> Option<Group>
        ensures numbered_from_1_to_3 { result ≡ group_of number }
    {
        match number {
            1 => Some(Group::Sample),
            2 => Some(Group::Corner),
            3 => Some(Group::Chosen),
            _ => None,
        }
    }
}
