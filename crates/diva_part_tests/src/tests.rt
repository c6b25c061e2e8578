// The tests, each of which the page of the crate names.
mod commits;
mod counts;
mod memory;
mod numbers;
mod plain;
mod queue;
mod stages;
mod vectors;
mod words;
