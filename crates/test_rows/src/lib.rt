//! Rows of text, as the programs of worked values read them: each is a call of a layer and what it is to give.
//!
//! A row is `CALL => WANTED`, or `CALL` alone where `ok` is wanted. A line that begins with two spaces continues the
//! row before it; lines that are empty or begin with `#` are left out. What is wanted is written with the escapes of
//! `bytes`, and so are the texts in calls where their layer says so.
#![tactic(auto)]

mod answer;
mod escapes;
mod files;
mod rows;
mod texts;
mod words;

pub use answer::Answer;
pub use escapes::{bytes, hex, text};
pub use files::Files;
pub use rows::{Layer, judge};
pub use texts::{coordinate, cut, cut_at, index, integer, number};
pub use words::{
    axes, cell, domain, fields, kind, numbers, point, refusal, say_domain, shown, yes,
};
