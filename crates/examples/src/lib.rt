// The worked examples of docs/, as tests. They stand in a crate of their own, so that the crates they look at are proved once.
#![tactic(auto)]

#[cfg(test)]
mod aliases;
#[cfg(test)]
mod firmware;
#[cfg(test)]
mod layers;
#[cfg(test)]
mod line_format;
#[cfg(test)]
mod requests;
#[cfg(test)]
mod setting_limits;
#[cfg(test)]
mod stacks;
#[cfg(test)]
mod text_limits;
