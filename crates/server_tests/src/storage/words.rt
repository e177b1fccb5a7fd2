//! What the words of a row stand for, and what calls give as text.

use anyhow::Result;
use arr_core::{Cell, Field, FieldType, Name, RunList, Signature};
use file_bytes::{Form, ReadError};
use std::alloc::{AllocError, Global};
use std::fmt::Display;
use test_rows::{Answer, cell, cut, cut_at, domain, fields, integer, say_domain, text};

/// The numbers of refusals that any call on a disk may have.
pub const NO_MEMORY: u16 = 90;

pub const DISK_FAULT: u16 = 91;

pub const NO_ROOM: u16 = 92;

pub const DAMAGED: u16 = 93;

/// The refusal of a reading.
pub fn unread(error: ReadError) -> u16 {
    match error {
        ReadError::Damaged => DAMAGED,
        ReadError::NoMemory => NO_MEMORY,
    }
}

/// The form of a tile and the words behind it: raw as `raw:i16:2`, else runs.
pub fn form_of(words: &str) -> (Form, &str) {
    let (first, rest) = cut_at(words, ':');
    if first == "raw" {
        (Form::Raw, rest)
    } else {
        (Form::Runs, words)
    }
}

/// The word for a form that stands before what is said of a tile: none for runs.
pub fn say_form(answer: &mut Answer, form: Form) {
    if form == Form::Raw {
        answer.say("raw:");
    }
}

fn say_number<T: Display>(alloc: Global, answer: &mut Answer, number: &T) {
    match format!(in alloc; "{number}") {
        Ok(digits) => answer.say(digits.as_str()),
        Err(_) => answer.wrong("no memory"),
    }
}

/// Numbers, as `0,-1`; `-` for none.
pub fn say_list<T: Display>(alloc: Global, answer: &mut Answer, numbers: &[T]) {
    if numbers.is_empty() {
        answer.say("-");
    }
    for k in 0..numbers.len() {
        if k > 0 {
            answer.say(",");
        }
        say_number(alloc, answer, &numbers[k]);
    }
}

/// Runs of equal cells, as `7*2,8*1`; where there are no counts, or the values have 32 bits, each cell.
pub fn say_runs(alloc: Global, answer: &mut Answer, runs: &RunList) {
    if runs.is_narrow {
        return say_list(alloc, answer, &runs.narrow);
    }
    if runs.counts.is_empty() {
        return say_list(alloc, answer, &runs.values);
    }
    for (place, (value, count)) in runs.values.iter().zip(&runs.counts).enumerate() {
        answer.say(if place > 0 { "," } else { "" });
        answer.integer(*value);
        answer.say("*");
        answer.count(u64::from(*count));
    }
}

fn add_range(list: &mut Vec<Cell>, start: i64, end: i64) -> Result<(), AllocError> {
    for number in start..end {
        list.push(Cell::Int(number))?;
    }
    Ok(())
}

/// Adds the cells of a word: one, or for `0..200` the numbers from 0 to 199.
fn add_cells(list: &mut Vec<Cell>, word: &str) -> Result<()> {
    match word.split_once("..") {
        Some((start, end)) => add_range(list, integer(start)?, integer(end)?)?,
        None => list.push(cell(word)?)?,
    }
    Ok(())
}

/// Cells, as `1,true`, `\3{1,}2` or `0..200`.
pub fn cells(alloc: Global, written: &str) -> Result<Vec<Cell>> {
    let words = text(alloc, written)?;
    let mut list = Vec::new(alloc);
    for word in words.split(',') {
        add_cells(&mut list, word)?;
    }
    Ok(list)
}

fn kind_name(kind: FieldType) -> &'static str {
    match kind {
        FieldType::Bool => "bool",
        FieldType::U8 => "u8",
        FieldType::I16 => "i16",
        FieldType::I32 => "i32",
        FieldType::I64 => "i64",
    }
}

/// Fields, as `v:i16,w:bool`.
fn say_fields(answer: &mut Answer, fields: &[Field]) {
    for k in 0..fields.len() {
        answer.say(if k > 0 { "," } else { "" });
        answer.say(fields[k].name.as_str());
        answer.say(":");
        answer.say(kind_name(fields[k].kind));
    }
}

/// The domain and the fields of a coverage, as `x(0:99) v:i16`; `none` where there is none.
pub fn say_signature(answer: &mut Answer, signature: Option<&Signature>) {
    match signature {
        Some(signature) => {
            say_domain(answer, &signature.domain);
            answer.say(" ");
            say_fields(answer, signature.fields.as_slice());
        }
        None => answer.say("none"),
    }
}

/// A coverage, as `lai x(0:99) v:i16`.
pub fn signature(alloc: Global, words: &str) -> Result<Signature> {
    let (name, rest) = cut(words);
    let (axes, list) = cut(rest);
    Ok(Signature {
        name: Name::new(alloc, name)?,
        domain: domain(alloc, axes)?,
        fields: fields(alloc, list)?,
    })
}

fn add_block(blocks: &mut Vec<u32>, word: &str) -> Result<()> {
    blocks.push(word.parse::<u32>()?)?;
    Ok(())
}

/// Numbers of blocks, as `1,2`.
pub fn block_numbers(alloc: Global, words: &str) -> Result<Vec<u32>> {
    let mut blocks = Vec::new(alloc);
    for word in words.split(',') {
        add_block(&mut blocks, word)?;
    }
    Ok(blocks)
}
