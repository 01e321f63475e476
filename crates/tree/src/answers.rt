// What a host answers.

/// What stands at a path.
#[derive(Clone, Copy, PartialEq, Eq, Debug)]
pub enum Kind {
    Nothing,
    File,
    Directory,
}

/// What is there cannot be read.
#[derive(Clone, Copy, PartialEq, Eq, Debug)]
pub struct Broken;

/// The longest main text, in bytes.
pub const MAX_MAIN: usize = 32;

/// A manifest that can be read, by how many main texts it has.
#[derive(Clone, Copy, PartialEq, Eq, Debug)]
pub struct Manifest {
    pub mains: usize,
}

/// Which lookup is asked for.
#[derive(Clone, Copy, PartialEq, Eq, Debug)]
pub enum Way {
    Package,
    Hash,
}
