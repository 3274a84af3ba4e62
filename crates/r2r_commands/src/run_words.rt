//! The words of `run`.

ghost use Rattle.std.specs.Prelude.{◌≡◌, ◌∷◌, ◌<◌, ◌≤◌, [], codes, length, map, option_map, string_bytes, vec_items};
ghost use Rattle.std.specs.Prelude.{is_some, IfOk, IsSome, MatchOption, Some};
ghost use Rattle.std.specs.List.{list_all};
ghost use Rattle.std.specs.Option.{option_copied};
ghost use Rattle.r2r_commands.specs.RunWords.{arguments_of, each_of, entry_of, is_given, is_option, items};
ghost use Rattle.r2r_commands.specs.RunWords.{only, run_of, single_item, ticks_of, values, workers_of};
ghost use Rattle.r2r_commands.specs.Values.{entry_meaning};
ghost use Rattle.r2r_commands.specs.ParsedWords.{item_meaning, single_of, single_meaning};

use crate::command::is_positional;
use crate::values::{Entry, are_arguments, arguments, split_entry, ticks};
use rtr_bytes::NoMemory;
use std::alloc::Global;
use std::marker::Model;

/// The option of files beside the image.
const REF: &str = "--ref";
/// The option of the method to begin with.
const ENTRY: &str = "--entry";
/// The option of a worker's arguments.
const WORKER: &str = "--worker";
/// The option of a worker's ticks.
const TICKS: &str = "--ticks";

/// The ticks of a worker, without the option.
const TICKS_BY_DEFAULT: u64 = 1_000_000_000;
/// The most workers.
const MOST_WORKERS: usize = 16;

/// A value and the option that it is of. The option of a positional word is empty, and so is the value of a word that is
/// neither an option with a value nor a positional word.
#[derive(Clone, Copy)]
pub(crate) struct Item<'a> {
    option: &'a str,
    value: &'a str,
}

/// The values of an option, where there is at most one.
#[derive(Clone, Copy)]
pub(crate) enum Single<'a> {
    /// There is none.
    None,
    /// There is one.
    One(&'a str),
    /// There are more.
    More,
}

/// The words of `run`, after the first of them. Contracts see what is asked for.
#[derive(Drop)]
pub(crate) struct RunWords<'a> {
    words: &'a [String],
    image: &'a str,
    entry: Option<Entry<'a>>,
    ticks: u64,
}

impl<'a> Model for RunWords<'a> {
    ghost use Rattle.std.specs.Prelude.{ℕ, List, [], map, string_bytes, option_map, unwrap_or, codes, IsSome};
    ghost use Rattle.r2r_commands.specs.RunWords.{Run, items, values, workers_of};
    ghost use Rattle.r2r_commands.specs.Values.{entry_meaning};
    ghost use Rattle.r2r_commands.specs.ParsedWords.{run_code};

    ghost Value = { Run };

    ghost coded = { run_code };

    ghost view = { λ s. record {
      image = s.image.now;
      refs = values (codes "--ref") (items (map string_bytes s.words.now));
      entry = option_map entry_meaning s.entry;
      workers = unwrap_or (workers_of (values (codes "--worker") (items (map string_bytes s.words.now)))) [];
      ticks = s.ticks;
    } };

    ghost invariant = { λ s. IsSome (workers_of (values (codes "--worker") (items (map string_bytes s.words.now)))) };
}

/// The option that a word is, where it is one.
fn is_option(word: &str) -> bool
    ensures { result ≡ is_option word.now }
{
    word == REF || word == ENTRY || word == WORKER || word == TICKS
}

/// The item of a word that takes no other.
fn single_item(word: &str) -> Item<'_>
    ensures { item_meaning result ≡ single_item word.now }
{
    if is_positional(word) {
        Item {
            option: "",
            value: word,
        }
    } else {
        Item {
            option: word,
            value: "",
        }
    }
}

/// The first item of words, and the words after it.
fn first_item<'a>(words: &'a [String]) -> Option<(Item<'a>, &'a [String])>
    ensures { MatchOption result (map string_bytes words.now ≡ []) (λ first.
        (items (map string_bytes words.now) ≡ item_meaning first.0 ∷ items (map string_bytes first.1.now))
        × (length first.1.now < length words.now)) }
{
    match words {
        [] => None,
        [word] => Some((single_item(word), &[])),
        [word, next, ..] => {
            if is_option(word) {
                let item = Item {
                    option: word,
                    value: next,
                };
                Some((item, &words[2..]))
            } else {
                Some((single_item(word), &words[1..]))
            }
        }
    }
}

/// Whether each item has a value.
fn are_given(words: &[String]) -> bool
    ensures { result ≡ list_all is_given (items (map string_bytes words.now)) }
{
    let mut rest = words;
    while let Some((item, others)) = first_item(rest) {
        if item.value.is_empty() {
            return false;
        }
        rest = others;
    }
    true
}

/// The values of an option, where there is at most one.
fn at_most_one<'a>(words: &'a [String], option: &str) -> Single<'a>
    ensures { single_meaning result ≡ single_of (values option.now (items (map string_bytes words.now))) }
{
    let mut found: Option<&'a str> = None;
    let mut rest = words;
    while let Some((item, others)) = first_item(rest) {
        if item.option == option {
            if found.is_some() {
                return Single::More;
            }
            found = Some(item.value);
        }
        rest = others;
    }
    match found {
        None => Single::None,
        Some(value) => Single::One(value),
    }
}

/// Whether the values of the option of workers are arguments, of at most so many workers.
fn are_workers(words: &[String]) -> bool
    ensures { result ≡ is_some (workers_of (values (codes "--worker") (items (map string_bytes words.now)))) }
{
    let mut workers = 0;
    let mut rest = words;
    while let Some((item, others)) = first_item(rest) {
        if item.option == WORKER {
            if workers == MOST_WORKERS {
                return false;
            }
            if !are_arguments(item.value) {
                return false;
            }
            workers += 1;
        }
        rest = others;
    }
    true
}

/// The arguments of each worker that the words name.
fn given_workers(alloc: Global, words: &[String]) -> Result<Vec<Vec<i128>>, NoMemory>
    requires { IsSome (each_of arguments_of (values (codes "--worker") (items (map string_bytes words.now)))) }
    ensures { IfOk result (λ workers.
        each_of arguments_of (values (codes "--worker") (items (map string_bytes words.now))) ≡ Some (map vec_items workers.items)) }
{
    let mut workers = Vec::new(alloc);
    let mut rest = words;
    while let Some((item, others)) = first_item(rest) {
        if item.option == WORKER {
            workers.push(arguments(alloc, item.value)?)?;
        }
        rest = others;
    }
    Ok(workers)
}

/// One worker with no arguments.
fn one_without_arguments(alloc: Global) -> Result<Vec<Vec<i128>>, NoMemory>
    ensures { IfOk result (λ workers. map vec_items workers.items ≡ [] ∷ []) }
{
    let mut workers = Vec::new(alloc);
    workers.push(Vec::new(alloc))?;
    Ok(workers)
}

/// The method to begin with, where at most one is named.
fn only_entry<'a>(words: &'a [String]) -> Option<Option<Entry<'a>>>
    ensures { option_map (option_map entry_meaning) result ≡ entry_of (values (codes "--entry") (items (map string_bytes words.now))) }
{
    match at_most_one(words, ENTRY) {
        Single::None => Some(None),
        Single::One(value) => match split_entry(value) {
            Some(entry) => Some(Some(entry)),
            None => None,
        },
        Single::More => None,
    }
}

/// The ticks of a worker, where at most one number of them is given.
fn only_ticks(words: &[String]) -> Option<u64>
    ensures { result ≡ ticks_of (values (codes "--ticks") (items (map string_bytes words.now))) }
{
    match at_most_one(words, TICKS) {
        Single::None => Some(TICKS_BY_DEFAULT),
        Single::One(value) => ticks(value),
        Single::More => None,
    }
}

/// The positional word, where there is one and no other.
fn only_image<'a>(words: &'a [String]) -> Option<&'a str>
    ensures { option_copied result ≡ only (values [] (items (map string_bytes words.now))) }
{
    match at_most_one(words, "") {
        Single::None => None,
        Single::One(word) => Some(word),
        Single::More => None,
    }
}

impl<'a> RunWords<'a> {
    /// What the words ask for, where they are words of `run` after the first. It takes no memory.
    pub(crate) fn parse(words: &'a [String]) -> Option<RunWords<'a>>
        ensures { result ≡ run_of (map string_bytes words.now) }
    {
        if !are_given(words) {
            return None;
        }
        if !are_workers(words) {
            return None;
        }
        let image = only_image(words)?;
        let entry = only_entry(words)?;
        let ticks = only_ticks(words)?;
        Some(RunWords {
            words,
            image,
            entry,
            ticks,
        })
    }

    /// The file that is run.
    pub(crate) fn image(&self) -> &'a str
        ensures { result.now ≡ self.now.image }
    {
        self.image
    }

    /// The files that are read: the one that is run, and those beside it, in their order.
    pub(crate) fn inputs(&self, alloc: Global) -> Result<Vec<&'a str>, NoMemory>
        ensures { IfOk result (λ names. map (λ name. name.now) names.items ≡ self.now.image ∷ self.now.refs) }
    {
        let mut names = Vec::new(alloc);
        names.push(self.image)?;
        let mut rest = self.words;
        while let Some((item, others)) = first_item(rest) {
            if item.option == REF {
                names.push(item.value)?;
            }
            rest = others;
        }
        Ok(names)
    }

    /// The method to begin with, where one is named.
    pub(crate) fn entry(&self) -> Option<Entry<'a>>
        ensures { option_map entry_meaning result ≡ self.now.entry }
    {
        self.entry
    }

    /// The arguments of each worker, in their order.
    pub(crate) fn workers(&self, alloc: Global) -> Result<Vec<Vec<i128>>, NoMemory>
        ensures workers { IfOk result (λ workers. map vec_items workers.items ≡ self.now.workers) }
        ensures few { IfOk result (λ workers. length workers.items ≤ 16) }
    {
        let workers = given_workers(alloc, self.words)?;
        if workers.is_empty() {
            one_without_arguments(alloc)
        } else {
            Ok(workers)
        }
    }

    /// How many ticks a worker has.
    pub(crate) fn ticks(&self) -> u64
        ensures { result ≡ self.now.ticks }
    {
        self.ticks
    }
}
