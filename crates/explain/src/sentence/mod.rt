// The sentences, each with the text that it writes.
mod ending;
mod labels;
mod offered;
mod quiet;
mod refused;
mod told;

pub use ending::{Forgot, Tally};
pub use labels::Labels;
pub(crate) use labels::any_touches;
pub use offered::Offered;
pub use quiet::QuietEnd;
pub use refused::Refused;
pub use told::Told;
