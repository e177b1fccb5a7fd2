//! Lists of bytes by name.

use crate::escapes::{bytes, hex_bytes};
use crate::texts::{cut, cut_at, index};
use anyhow::Result;
use std::alloc::{AllocError, Global};

/// A named list of bytes.
#[derive(Drop)]
struct File {
    name: String,
    bytes: Vec<u8>,
}

/// The lists of bytes that the rows have named.
#[derive(Drop)]
pub struct Files {
    files: Vec<File>,
}

impl Files {
    pub fn new(alloc: Global) -> Files {
        Files {
            files: Vec::new(alloc),
        }
    }

    /// Names a list of bytes.
    pub fn put(&mut self, alloc: Global, name: &str, bytes: Vec<u8>) -> Result<(), AllocError> {
        let name = String::from_str(alloc, name)?;
        self.files.push(File { name, bytes })?;
        Ok(())
    }

    /// Names a list of bytes that is written as `bytes` reads it, as `lai -/8192 0:WCPSTORE`.
    pub fn name(&mut self, alloc: Global, words: &str) -> Result<()> {
        let (name, words) = cut(words);
        let bytes = self.bytes(alloc, words)?;
        self.put(alloc, name, bytes)?;
        Ok(())
    }

    /// The place of the bytes that were named last by this name, and the number of names where there are none.
    fn place(&self, name: &str) -> usize {
        let mut found = self.files.len();
        for k in 0..self.files.len() {
            if self.files[k].name.as_str() == name {
                found = k;
            }
        }
        found
    }

    /// The bytes that were named last by this name; of `-` none, and of `0x0a0b` those digits.
    fn named(&self, alloc: Global, name: &str) -> Result<Vec<u8>> {
        if let Some(digits) = name.strip_prefix("0x") {
            return hex_bytes(alloc, digits);
        }
        copy(alloc, self.files.get(self.place(name)))
    }

    /// The bytes of a name and the changes of them, as `lai/4096 12:\x01 4096:d\x00`: cut or filled with zeros to a
    /// length, and from each place on the bytes behind it.
    pub fn bytes(&self, alloc: Global, words: &str) -> Result<Vec<u8>> {
        let (base, changes) = cut(words);
        let (name, length) = cut_at(base, '/');
        let mut content = self.named(alloc, name)?;
        resize(&mut content, length)?;
        for change in changes.split_whitespace() {
            put(alloc, &mut content, change)?;
        }
        Ok(content)
    }
}

/// The bytes of a file, and none of none.
fn copy(alloc: Global, file: Option<&File>) -> Result<Vec<u8>> {
    let mut bytes = Vec::new(alloc);
    if let Some(file) = file {
        bytes.extend_from_slice(&file.bytes)?;
    }
    Ok(bytes)
}

/// Cuts bytes or fills them with zeros to a length, where one is written.
fn resize(content: &mut Vec<u8>, length: &str) -> Result<()> {
    if !length.is_empty() {
        content.resize(index(length)?, 0)?;
    }
    Ok(())
}

/// Puts bytes in the place of others; what would stand past the end is left out.
fn overwrite(content: &mut [u8], place: usize, part: &[u8]) {
    for k in 0..part.len() {
        let at = place.saturating_add(k);
        if at < content.len() {
            content[at] = part[k];
        }
    }
}

/// Puts bytes in the place of others, as `12:\x01`.
fn put(alloc: Global, content: &mut [u8], change: &str) -> Result<()> {
    let (place, written) = cut_at(change, ':');
    let place = index(place)?;
    overwrite(content, place, &bytes(alloc, written)?);
    Ok(())
}
