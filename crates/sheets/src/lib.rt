// Sheets: what their lines say, and the rows that answer them.
#![tactic(auto)]

mod answering;
mod entry;
mod reading;
mod refusal;
mod row;
mod task;
mod whole;
mod work;

pub use answering::answer;
pub use entry::is_setting;
pub use reading::read;
pub use refusal::Refusal;
pub use task::Task;
pub use whole::answer_sheet;
