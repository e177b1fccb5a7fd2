//! The words of a text.

use anyhow::{Result, bail};

/// What stands before and behind the first such letter; nothing behind where there is none.
pub fn cut_at(text: &str, mark: char) -> (&str, &str) {
    match text.split_once(mark) {
        Some(parts) => parts,
        None => (text, ""),
    }
}

/// The first word, and the others; none stand for no words.
pub fn cut(words: &str) -> (&str, &str) {
    cut_at(words, ' ')
}

/// The number of a word that is 0 or more; an error for a word that is none.
pub fn number(word: &str) -> Result<u64> {
    match word.parse::<u64>() {
        Ok(number) => Ok(number),
        Err(_) => bail!("a word is no number of 0 or more"),
    }
}

/// The number of a word; an error for a word that is none.
pub fn integer(word: &str) -> Result<i64> {
    match word.parse::<i64>() {
        Ok(number) => Ok(number),
        Err(_) => bail!("a word is no number"),
    }
}

/// The coordinate of a word; an error for a word that is none.
pub fn coordinate(word: &str) -> Result<i32> {
    match word.parse::<i32>() {
        Ok(number) => Ok(number),
        Err(_) => bail!("a word is no coordinate"),
    }
}

/// The length or the place of a word; an error for a word that is none.
pub fn index(word: &str) -> Result<usize> {
    match word.parse::<usize>() {
        Ok(number) => Ok(number),
        Err(_) => bail!("a word is no length and no place"),
    }
}
