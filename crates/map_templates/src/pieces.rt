//! Text that is put together of pieces.

ghost use Rattle.std.specs.Prelude.{◌≡◌, ◌++◌, string_bytes, OnOk};
ghost use Rattle.map_templates.specs.Pieces.{text_of, Writes};

use std::alloc::{AllocError, Global};

/// The pieces as one text.
pub fn joined(alloc: Global, pieces: &[&str]) -> Result<String, AllocError>
    ensures { Writes result (text_of pieces.now) }
{
    let mut text = String::new(alloc);
    push_all(&mut text, pieces)?;
    Ok(text)
}

/// Puts the pieces at the end, one after the other.
fn push_all(text: &mut String, pieces: &[&str]) -> Result<(), AllocError>
    ensures { OnOk result (string_bytes text.new ≡ string_bytes text.old ++ text_of pieces.now) }
{
    match pieces {
        [] => Ok(()),
        [piece] => text.push_str(piece),
        [piece, more @ ..] => {
            text.push_str(piece)?;
            push_all(text, more)
        }
    }
}
