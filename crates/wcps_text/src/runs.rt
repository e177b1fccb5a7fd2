//! Runs of bytes of one class.

ghost use Rattle.std.specs.Prelude.{◌≡◌, ◌-◌, ◌<◌, ◌≤◌, length, take, drop, get_or, IsTrue};
ghost use Rattle.wcps_text.specs.Lexing.{Every};
ghost use Rattle.std.specs.Char.{is_ascii_digit};
ghost use Rattle.wcps_text.specs.Runs.{is_of, Stops};

/// A class of bytes.
#[derive(Clone, Copy)]
pub enum Class {
    /// Space, tab, CR or LF.
    Space,
    Digit,
    /// A letter, a digit or `_`.
    Name,
    /// What may stand in a string.
    Quotable,
}

fn is_of(class: Class, byte: u8) -> bool
    ensures value { result ≡ is_of class byte }
    ensures ascii { IsTrue result → byte < 128 }
{
    match class {
        Class::Space => byte == b' ' || byte == b'\t' || byte == b'\r' || byte == b'\n',
        Class::Digit => byte.is_ascii_digit(),
        Class::Name => byte.is_ascii_alphanumeric() || byte == b'_',
        Class::Quotable => 32 <= byte && byte <= 126 && byte != b'"',
    }
}

/// How many bytes at the front are of the class.
pub fn run(class: Class, bytes: &[u8]) -> usize
    ensures within { result ≤ length bytes.now }
    ensures front { Every (is_of class) (take result bytes.now) }
    ensures stops { Stops (is_of class) (drop result bytes.now) }
    ensures last { 0 < result → get_or bytes.now (result - 1) 0 < 128 }
{
    let mut count = 0;
    while count < bytes.len() && is_of(class, bytes[count]) {
        count += 1;
    }
    count
}
