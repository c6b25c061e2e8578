// The tests, each of which the page of the crate names.
mod calls;
mod lists;
mod logs;
mod out_of_order;
mod sessions;
mod soaks;
mod undo;
