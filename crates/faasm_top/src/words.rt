//! The words of the program.

ghost use Rattle.std.specs.Prelude.{◌≡◌, ◌≢◌, [], ◌∷◌, IfOk, IsErrOf, option_copied};
ghost use Rattle.faaslet_meaning.specs.Productions.{NoSpelling};
ghost use Rattle.faaslet_meaning.specs.Words.{IsInput, IsNumber, CommandOf};
ghost use Rattle.faasm_top.specs.Answers.{file_of};
ghost use Rattle.faasm_top.specs.Commands.{texts, command_of};
ghost use Rattle.faasm_top.specs.declared.words.WordsFault.TheVariants as fault;
ghost use Rattle.hex.specs.declared.error.FromHexError.TheVariants as hex_fault;

use faaslet_meaning::{Bytes, Items};
use hex::FromHexError;
use std::alloc::{AllocError, Global};
use thiserror::Error;

/// A command with its values.
#[derive(Debug, Drop, PartialEq)]
pub enum Command<'w> {
    /// Decode and validate the module in a file.
    Check {
        file: &'w str,
    },
    /// One call of the module in a file, with an input of at most 65,536 bytes and fuel from 1 to
    /// 2^40.
    Call {
        file: &'w str,
        input: Bytes,
        fuel: u64,
    },
    /// The session in a file, in the order of a seed.
    Trace {
        file: &'w str,
        seed: u64,
    },
    /// The session in a file, with threads.
    Run {
        file: &'w str,
    },
    /// A generated session of 1 to 1,024 requests.
    Load {
        count: u32,
    },
}

impl Command<'_> {
    /// The file of a module that it reads.
    pub fn file(&self) -> Option<&str>
        ensures { option_copied result ≡ file_of (command_of self.now) }
    {
        match self {
            Command::Check { file } => Some(*file),
            Command::Call { file, .. } => Some(*file),
            _ => None,
        }
    }
}

/// Why words were not read as a command.
#[derive(Clone, Copy, Debug, PartialEq, Eq, Error)]
pub enum WordsFault {
    #[error("no such command")]
    Usage,
    #[error("out of memory")]
    Want,
}

impl From<AllocError> for WordsFault {
    ghost from_gives = { λ _ e. e ≡ fault.Want };

    fn from(_: AllocError) -> WordsFault {
        WordsFault::Want
    }
}

impl From<FromHexError> for WordsFault {
    ghost from_gives = { λ e f. (e ≡ hex_fault.OutOfMemory → f ≡ fault.Want)
        × (e ≢ hex_fault.OutOfMemory → f ≡ fault.Usage) };

    fn from(e: FromHexError) -> WordsFault {
        match e {
            FromHexError::OutOfMemory => WordsFault::Want,
            _ => WordsFault::Usage,
        }
    }
}

const MOST_INPUT: usize = 65_536;

const MOST_FUEL: u64 = 1_099_511_627_776;

const MOST_REQUESTS: u64 = 1_024;

/// The input that a word spells in hexadecimal digits.
fn read_input(alloc: Global, word: &str) -> Result<Bytes, WordsFault>
    ensures found { IfOk result (λ input. IsInput input word.now) }
    ensures usage { IsErrOf result WordsFault.Usage → NoSpelling IsInput word.now }
{
    // A word that is too long takes no memory.
    if word.len() > 2 * MOST_INPUT {
        return Err(WordsFault::Usage);
    }
    Ok(Items::of(hex::decode(alloc, word)?))
}

/// The number from `least` to `most` that a word spells in decimal digits.
fn read_number(alloc: Global, word: &str, least: u64, most: u64) -> Result<u64, WordsFault>
    ensures found { IfOk result (λ n. IsNumber least most n word.now) }
    ensures usage { IsErrOf result WordsFault.Usage → NoSpelling (IsNumber least most) word.now }
{
    let Ok(number) = word.parse::<u64>() else {
        return Err(WordsFault::Usage);
    };
    if number < least || number > most {
        return Err(WordsFault::Usage);
    }
    // A sign or a leading zero is no other spelling.
    if number.to_string(alloc)?.as_str() == word {
        Ok(number)
    } else {
        Err(WordsFault::Usage)
    }
}

/// The command of two words: `check`, `run` or `load`.
fn read_two<'w>(alloc: Global, name: &str, value: &'w str) -> Result<Command<'w>, WordsFault>
    ensures found { IfOk result (λ c. CommandOf (command_of c) (name.now ∷ value.now ∷ [])) }
    ensures usage { IsErrOf result WordsFault.Usage
        → NoSpelling CommandOf (name.now ∷ value.now ∷ []) }
{
    if name == "check" {
        return Ok(Command::Check { file: value });
    }
    if name == "run" {
        return Ok(Command::Run { file: value });
    }
    if name != "load" {
        return Err(WordsFault::Usage);
    }
    let count = read_number(alloc, value, 1, MOST_REQUESTS)?;
    Ok(Command::Load {
        count: count as u32,
    })
}

/// The command of three words: `trace`.
fn read_three<'w>(
    alloc: Global,
    name: &str,
    file: &'w str,
    seed_word: &str,
) -> Result<Command<'w>, WordsFault>
    ensures found { IfOk result (λ c. CommandOf (command_of c)
        (name.now ∷ file.now ∷ seed_word.now ∷ [])) }
    ensures usage { IsErrOf result WordsFault.Usage → NoSpelling CommandOf
        (name.now ∷ file.now ∷ seed_word.now ∷ []) }
{
    if name != "trace" {
        return Err(WordsFault::Usage);
    }
    let seed = read_number(alloc, seed_word, 0, u64::MAX)?;
    Ok(Command::Trace { file, seed })
}

/// The command of four words: `call`.
fn read_four<'w>(
    alloc: Global,
    name: &str,
    file: &'w str,
    input_word: &str,
    fuel_word: &str,
) -> Result<Command<'w>, WordsFault>
    ensures found { IfOk result (λ c. CommandOf (command_of c)
        (name.now ∷ file.now ∷ input_word.now ∷ fuel_word.now ∷ [])) }
    ensures usage { IsErrOf result WordsFault.Usage → NoSpelling CommandOf
        (name.now ∷ file.now ∷ input_word.now ∷ fuel_word.now ∷ []) }
{
    if name != "call" {
        return Err(WordsFault::Usage);
    }
    let input = read_input(alloc, input_word)?;
    let fuel = read_number(alloc, fuel_word, 1, MOST_FUEL)?;
    Ok(Command::Call { file, input, fuel })
}

/// The command that the words are, without the program's own name.
pub fn read_words(alloc: Global, words: &[String]) -> Result<Command<'_>, WordsFault>
    ensures found { IfOk result (λ c. CommandOf (command_of c) (texts words.now)) }
    ensures usage { IsErrOf result WordsFault.Usage → NoSpelling CommandOf (texts words.now) }
{
    match words {
        [name, value] => read_two(alloc, name.as_str(), value.as_str()),
        [name, file, seed] => read_three(alloc, name.as_str(), file.as_str(), seed.as_str()),
        [name, file, input, fuel] => read_four(
            alloc,
            name.as_str(),
            file.as_str(),
            input.as_str(),
            fuel.as_str(),
        ),
        _ => Err(WordsFault::Usage),
    }
}
