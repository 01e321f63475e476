// Which way a path goes.
ghost use Rattle.std.specs.Prelude.{◌≡◌};
ghost use Rattle.specifier.specs.Branches.{branch, is_absolute};
ghost use Rattle.texts.specs.Texts.{SLASH, begins};

/// What a path names: a file from the root or from where the request stands, an entry of a package's own imports, or a package.
#[derive(Clone, Copy, PartialEq, Eq, Debug)]
pub enum Branch {
    Absolute,
    Relative,
    Hash,
    Package,
}

impl Branch {
    /// The way of `path`, by its first part: a name that merely begins with a dot is no `.` or `..`.
    #[tactic(auto, using(crate::proofs::Firsts::branch_is))]
    pub fn of(path: &[u8]) -> Branch
        ensures way_of_the_first_part { result ≡ branch path.now }
        ensures absolute_exactly_with_a_leading_slash { is_absolute result ≡ begins SLASH path.now }
    {
        match path {
            [b'/', ..] => Branch::Absolute,
            [b'.'] | [b'.', b'/', ..] | [b'.', b'.'] | [b'.', b'.', b'/', ..] => Branch::Relative,
            [b'#', ..] => Branch::Hash,
            _ => Branch::Package,
        }
    }
}
