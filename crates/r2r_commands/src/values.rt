//! The values of the options of `run`: numbers, arguments of workers, entries.

ghost use Rattle.std.specs.Prelude.{◌≡◌, ◌∷◌, ◌<◌, length, IfSome, option_and_then, option_map, is_some, IsSome, IfOk, Some};
ghost use Rattle.std.specs.Option.{option_copied};
ghost use Rattle.r2r_commands.specs.RunWords.{arguments_of, each_of, number_of, parts, split_entry, ticks_in_range};
ghost use Rattle.r2r_commands.specs.Values.{entry_meaning, rest_parts};

use itoa::Buffer;
use rtr_bytes::NoMemory;
use std::alloc::Global;

/// A method by the name of its type, with its namespace, and its own name.
#[derive(Clone, Copy)]
pub(crate) struct Entry<'a> {
    /// The name of the type.
    pub(crate) type_name: &'a str,
    /// The name of the method.
    pub(crate) method: &'a str,
}

/// The number that a word is: in decimal without leading zeros, from -2^63 to 2^64 - 1.
pub(crate) fn number(word: &str) -> Option<i128>
    ensures { result ≡ number_of word.now }
{
    let number: i128 = word.parse().ok()?;
    let mut buffer = Buffer::new();
    let spelled = buffer.format(number) == word;
    let in_range = i128::from(i64::MIN) <= number && number <= i128::from(u64::MAX);
    if spelled && in_range {
        Some(number)
    } else {
        None
    }
}

/// The number of ticks that a word is: below 2^40.
pub(crate) fn ticks(word: &str) -> Option<u64>
    ensures { result ≡ option_and_then ticks_in_range (number_of word.now) }
{
    match number(word) {
        Some(number) if 0 <= number && number < 1 << 40 => Some(number as u64),
        _ => None,
    }
}

/// What is before the last `::` and after it.
pub(crate) fn split_entry(value: &str) -> Option<Entry<'_>>
    ensures { option_map entry_meaning result ≡ split_entry value.now }
{
    match value.rsplit_once("::") {
        Some((type_name, method)) => Some(Entry { type_name, method }),
        None => None,
    }
}

/// The text before the first comma, and what is after it, where there is one.
fn split_part(text: &str) -> (&str, Option<&str>)
    ensures parts { parts text.now ≡ result.0.now ∷ rest_parts (option_copied result.1) }
    ensures shorter { IfSome result.1 (λ rest. length rest.now < length text.now) }
{
    match text.split_once(',') {
        Some((part, rest)) => (part, Some(rest)),
        None => (text, None),
    }
}

/// Whether each part between commas is a number.
fn are_numbers(value: &str) -> bool
    ensures { result ≡ is_some (each_of number_of (parts value.now)) }
{
    let mut rest = Some(value);
    while let Some(text) = rest {
        let (part, others) = split_part(text);
        if number(part).is_none() {
            return false;
        }
        rest = others;
    }
    true
}

/// Whether a value is a worker's arguments: a dash for none, or numbers between commas.
pub(crate) fn are_arguments(value: &str) -> bool
    ensures { result ≡ is_some (arguments_of value.now) }
{
    value == "-" || are_numbers(value)
}

/// The numbers between commas.
fn numbers(alloc: Global, value: &str) -> Result<Vec<i128>, NoMemory>
    requires { IsSome (each_of number_of (parts value.now)) }
    ensures { IfOk result (λ numbers. each_of number_of (parts value.now) ≡ Some numbers.items) }
{
    let mut numbers = Vec::new(alloc);
    let mut rest = Some(value);
    while let Some(text) = rest {
        let (part, others) = split_part(text);
        if let Some(number) = number(part) {
            numbers.push(number)?;
        }
        rest = others;
    }
    Ok(numbers)
}

/// A worker's arguments.
pub(crate) fn arguments(alloc: Global, value: &str) -> Result<Vec<i128>, NoMemory>
    requires { IsSome (arguments_of value.now) }
    ensures { IfOk result (λ numbers. arguments_of value.now ≡ Some numbers.items) }
{
    if value == "-" {
        Ok(Vec::new(alloc))
    } else {
        numbers(alloc, value)
    }
}
