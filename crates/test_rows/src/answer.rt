//! What a call gives, written part by part.

use anyhow::{Result, bail};
use arr_core::refusal_name;
use std::alloc::{AllocError, Global};

/// What a call gives, as a row has it behind `=>`. Want of memory is kept as the reason why the call gives nothing, so
/// that no part has an outcome of its own.
#[derive(Drop)]
pub struct Answer {
    text: String,
    /// Whether the text is the reason why the call gives nothing.
    is_wrong: bool,
}

/// The hexadecimal digit of a number below 16.
fn digit(number: u8) -> char {
    let first = if number < 10 { b'0' } else { b'a' - 10 };
    char::from(first.wrapping_add(number))
}

impl Answer {
    pub fn new(alloc: Global) -> Answer {
        Answer {
            text: String::new(alloc),
            is_wrong: false,
        }
    }

    pub fn as_str(&self) -> &str {
        self.text.as_str()
    }

    /// The call gives nothing, and why.
    pub fn wrong(&mut self, reason: &str) {
        self.is_wrong = true;
        self.text.clear();
        self.add(reason);
    }

    fn add(&mut self, text: &str) {
        if self.text.push_str(text).is_err() {
            self.is_wrong = true;
        }
    }

    /// Adds a text; nothing where the call gives nothing.
    pub fn say(&mut self, text: &str) {
        if !self.is_wrong {
            self.add(text);
        }
    }

    pub fn letter(&mut self, letter: char) {
        if self.text.push(letter).is_err() {
            self.is_wrong = true;
        }
    }

    /// Adds a text that was made for it.
    fn made(&mut self, text: Result<String, AllocError>) {
        match text {
            Ok(text) => self.say(text.as_str()),
            Err(_) => self.is_wrong = true,
        }
    }

    pub fn integer(&mut self, number: i64) {
        let made = format!(in *self.text.allocator(); "{number}");
        self.made(made);
    }

    pub fn count(&mut self, number: u64) {
        let made = format!(in *self.text.allocator(); "{number}");
        self.made(made);
    }

    pub fn yes(&mut self, is_so: bool) {
        self.say(if is_so { "yes" } else { "no" });
    }

    /// The number and the name of a refusal, as `22 BadDomain`.
    pub fn refusal(&mut self, number: u16) {
        self.count(u64::from(number));
        self.say(" ");
        self.say(refusal_name(number));
    }

    /// Bytes as hexadecimal digits.
    pub fn hex(&mut self, bytes: &[u8]) {
        for byte in bytes {
            self.letter(digit(*byte / 16));
            self.letter(digit(*byte % 16));
        }
    }

    /// A comma between this part of a list and the part before it.
    pub fn comma(&mut self) {
        if !self.text.is_empty() {
            self.say(",");
        }
    }

    /// A letter, as an escape where it ends a line or begins an escape.
    fn escaped(&mut self, letter: char) {
        match letter {
            '\n' => self.say("\\n"),
            '\r' => self.say("\\r"),
            '\\' => self.say("\\\\"),
            _ => self.letter(letter),
        }
    }

    /// A text with the ends of its lines as escapes.
    pub fn escape(&mut self, text: &str) {
        for letter in text.chars() {
            self.escaped(letter);
        }
    }

    /// The text that was written, or the reason why there is none.
    pub fn into_text(self) -> Result<String> {
        let Answer { text, is_wrong } = self;
        if is_wrong {
            bail!("{}", text.as_str());
        }
        Ok(text)
    }

    /// The text that was written, where no more than memory could be wanting.
    pub fn into_string(self) -> Result<String, AllocError> {
        let Answer { text, is_wrong } = self;
        if is_wrong {
            return Err(AllocError);
        }
        Ok(text)
    }
}
