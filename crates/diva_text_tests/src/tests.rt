// The tests, each of which the page of the crate names.
mod args;
mod asm;
mod commands;
mod cores;
mod disk;
mod outside;
mod run_texts;
mod scripts;
mod tapes;
