// The tests, each of which the page of the crate names.
mod alike;
mod lanes;
mod machines;
mod runs;
mod votes;
