// A layer over two hosts: the second answers below a path, the first everywhere else.
#![tactic(auto)]

mod layer;

pub use layer::Mount;
