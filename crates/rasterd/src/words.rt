//! The command that words are.
ghost use Rattle.std.specs.Prelude.{◌≡◌, ℕ, [], ◌∷◌, None, map, string_bytes, IfSome};
ghost use Rattle.rasterd.specs.Commands.{Asks, IsNumber};
ghost use Rattle.rasterd.specs.declared.commands.Command.{Command as Asked};

use crate::commands::Command;

/// The greatest port.
const MAX_PORT: u32 = 65_535;

/// The most connections of a run.
const MAX_CONNECTIONS: u32 = 1_000_000;

/// The number that decimal digits alone write, where it is from 1 to `most`.
fn number_up_to(text: &str, most: u32) -> Option<u32>
    ensures some { IfSome result (IsNumber most text.now) }
    ensures none { result ≡ None → (n : ℕ) → IsNumber most text.now n → ⊥ }
{
    let bytes = text.as_bytes();
    if bytes.is_empty() || bytes[0] == b'+' {
        return None;
    }
    match text.parse::<u32>() {
        Ok(number) => {
            if number == 0 || number > most {
                None
            } else {
                Some(number)
            }
        }
        Err(_) => None,
    }
}

/// The command of four words.
fn listening<'a>(file: &'a str, verb: &str, port: &str, count: &str) -> Option<Command<'a>>
    ensures some { IfSome result (Asks (file.now ∷ verb.now ∷ port.now ∷ count.now ∷ [])) }
    ensures none { result ≡ None → (c : Asked) → Asks (file.now ∷ verb.now ∷ port.now ∷ count.now ∷ []) c → ⊥ }
{
    if verb != "listen" {
        return None;
    }
    let Some(port) = number_up_to(port, MAX_PORT) else {
        return None;
    };
    let Some(count) = number_up_to(count, MAX_CONNECTIONS) else {
        return None;
    };
    Some(Command::Listen(file, port as u16, count))
}

/// The command that the words after the program's name are: `FILE run`, or `FILE listen PORT COUNT` with a port from 1
/// to `MAX_PORT` and a count from 1 to `MAX_CONNECTIONS`, in decimal digits alone.
pub fn command(words: &[String]) -> Option<Command<'_>>
    ensures some { IfSome result (Asks (map string_bytes words.now)) }
    ensures none { result ≡ None → (c : Asked) → Asks (map string_bytes words.now) c → ⊥ }
{
    match words {
        [file, verb] => {
            if verb.as_str() == "run" {
                Some(Command::Run(file.as_str()))
            } else {
                None
            }
        }
        [file, verb, port, count] => listening(
            file.as_str(),
            verb.as_str(),
            port.as_str(),
            count.as_str(),
        ),
        _ => None,
    }
}
