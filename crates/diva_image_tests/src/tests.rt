// The tests, each of which the page of the crate names.
mod executables;
mod images;
