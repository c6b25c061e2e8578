// The tests, each of which the page of the crate names.
mod calls;
mod drives;
mod harts;
mod litmus;
mod moments;
