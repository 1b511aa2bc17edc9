//! The options and the file as `clap` reads them.
ghost use Rattle.std.specs.Prelude.{◌≡◌, ◌≢◌, ◌≤◌, [], true, false, Some, IfOk, IfSome, IfErr, IsErrOf, map, option_map, option_and_then, string_bytes, codes};
ghost use Rattle.clap.specs.Words.{app_of, found_of, rows_of, matches_of, kind_of, fault_of, rule_of, first_of};
ghost use Rattle.command_words.specs.Words.{form_app, option_rule, plain_app, given, number_in, number_given, are_options, is_right_text};

use crate::words_fault::WordsFault;
use clap::error::ErrorKind;
use clap::{Arg, ArgMatches, Command, Error};
use std::alloc::{AllocError, Global};

/// The most workers that the words may ask for.
pub const MOST_WORKERS: u64 = 64;

/// The most blocks of a generated script that the words may ask for.
pub const GREATEST_SIZE: u64 = 100_000;

/// The values of the options, and the file.
#[derive(Drop)]
pub struct Options<'a> {
    pub workers: Option<u64>,
    pub seed: Option<u64>,
    pub size: Option<u64>,
    pub file: Option<&'a str>,
}

// An option that takes a value.
fn option<'a>(alloc: Global, name: &'a str) -> Arg<'a>
    ensures rule { rule_of result ≡ option_rule name.entry.now }
    ensures local { result.global ≡ false }
{
    Arg::new(alloc, name).long(name)
}

// A command with no words of its own.
fn command_without_words<'a>(alloc: Global) -> Command<'a>
    ensures { app_of result ≡ plain_app }
{
    Command::new(alloc, "strsolve")
        .no_binary_name(true)
        .disable_help_flag(true)
        .disable_version_flag(true)
}

// The command with three value options and one positional.
fn command<'a>(alloc: Global) -> Result<Command<'a>, AllocError>
    ensures { IfOk result (λ command. app_of command ≡ form_app) }
{
    let first = command_without_words(alloc).arg(option(alloc, "workers"))?;
    let second = first.arg(option(alloc, "generate"))?;
    let third = second.arg(option(alloc, "size"))?;
    third.arg(Arg::new(alloc, "file"))
}

fn parse<'a>(alloc: Global, words: &'a [String]) -> Result<ArgMatches<'a>, Error>
    ensures rows { IfOk result (λ found. rows_of (found_of found) ≡ matches_of form_app (map string_bytes words.entry.now)) }
    ensures ok { IfOk result (λ found. fault_of form_app (map string_bytes words.entry.now) ≡ []) }
    ensures err { IfErr result (λ error. kind_of error ≢ ErrorKind.OutOfMemory → fault_of form_app (map string_bytes words.entry.now) ≢ []) }
{
    let command = command(alloc)?;
    command.try_get_matches_from(words)
}

// The number of a text, where it is one within these bounds.
fn number(text: &str, least: u64, most: u64) -> Option<u64>
    ensures number { result ≡ number_in least most text.now }
    ensures within { IfSome result (λ number. (least ≤ number) × (number ≤ most)) }
{
    match text.parse::<u64>() {
        Ok(number) => {
            if number < least {
                return None;
            }
            if most < number {
                return None;
            }
            Some(number)
        }
        Err(_) => None,
    }
}

// The number of a text that may be missing, or that there is a wrong text.
fn number_of(text: Option<&str>, least: u64, most: u64) -> Result<Option<u64>, WordsFault>
    ensures ok { IfOk result (λ number. number ≡ option_and_then (number_in least most) (option_map (λ text. text.now) text.entry)) }
    ensures within { IfOk result (λ number. IfSome number (λ n. (least ≤ n) × (n ≤ most))) }
    ensures right { IfOk result (λ number. is_right_text (option_map (λ text. text.now) text.entry) number ≡ true) }
    ensures wrong { IfErr result (λ fault. (fault ≡ WordsFault.Outside) × (is_right_text (option_map (λ text. text.now) text.entry) (option_and_then (number_in least most) (option_map (λ text. text.now) text.entry)) ≡ false)) }
{
    match text {
        None => Ok(None),
        Some(text) => match number(text, least, most) {
            Some(number) => Ok(Some(number)),
            None => Err(WordsFault::Outside),
        },
    }
}

// The text that the matches give for a name.
fn text_of<'a>(found: &ArgMatches<'a>, name: &str) -> Option<&'a str>
    ensures { option_map (λ text. text.now) result ≡ first_of name.now (rows_of (found_of found.now)) }
{
    found.get_str(name)
}

/// The values of the options and the file.
///
/// # Errors
///
/// `Outside` where `clap` refuses the words or a number isn't one within its bounds.
pub(crate) fn read_options<'a>(
    alloc: Global,
    words: &'a [String],
) -> Result<Options<'a>, WordsFault>
    ensures form { IfOk result (λ options. are_options (map string_bytes words.entry.now) ≡ true) }
    ensures workers { IfOk result (λ options. options.workers ≡ number_given (codes "workers") 1 MOST_WORKERS (map string_bytes words.entry.now)) }
    ensures few { IfOk result (λ options. IfSome options.workers (λ n. (1 ≤ n) × (n ≤ MOST_WORKERS))) }
    ensures seed { IfOk result (λ options. options.seed ≡ number_given (codes "generate") 0 18446744073709551615 (map string_bytes words.entry.now)) }
    ensures size { IfOk result (λ options. options.size ≡ number_given (codes "size") 1 GREATEST_SIZE (map string_bytes words.entry.now)) }
    ensures file { IfOk result (λ options. option_map (λ text. text.now) options.file ≡ given (codes "file") (map string_bytes words.entry.now)) }
    ensures outside { IsErrOf result WordsFault.Outside → are_options (map string_bytes words.entry.now) ≡ false }
{
    let found = match parse(alloc, words) {
        Ok(found) => found,
        Err(error) => {
            if error.kind() == ErrorKind::OutOfMemory {
                return Err(WordsFault::Memory(AllocError));
            }
            return Err(WordsFault::Outside);
        }
    };
    let workers = text_of(&found, "workers");
    let seed = text_of(&found, "generate");
    let size = text_of(&found, "size");
    let file = text_of(&found, "file");
    drop(found);
    let workers = number_of(workers, 1, MOST_WORKERS)?;
    let seed = number_of(seed, 0, u64::MAX)?;
    let size = number_of(size, 1, GREATEST_SIZE)?;
    Ok(Options {
        workers,
        seed,
        size,
        file,
    })
}
