//! Fields that have a format of their own: numbers, texts, lists of numbers, counter values, call chains,
//! registers and file ids.

pub mod call_chain;
pub mod file_id;
pub mod numbers;
pub mod read_values;
pub mod registers;
pub mod task;
pub mod text;
pub mod u64s;
pub mod words;
