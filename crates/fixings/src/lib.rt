#![tactic(auto)]

// Sources of rates: a projection, the kept book, and the fixing file.
pub mod book;
pub mod field;
pub mod file;
pub mod fixing;
mod reader;
mod search;
pub mod source;
#[cfg(test)]
mod tests;
