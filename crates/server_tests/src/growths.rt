//! Growths of memory that are refused, each in turn, while a script runs over a store.

mod counts;
mod refusing;
mod running;
mod scripted;
mod turns;

pub use scripted::Script;
