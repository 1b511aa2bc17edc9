//! What the words ask for.
ghost use Rattle.std.specs.Prelude.{◌≡◌, ◌≤◌, false, true, IfOk, IfErr, IsErrOf, map, option_map, string_bytes};
ghost use Rattle.command_words.specs.declared.options.TheConstants.{MOST_WORKERS};
ghost use Rattle.command_words.specs.Words.{is_in_form, are_together};
ghost use Rattle.command_words.specs.Asked.{IsAskedLine, IsTaskOf, named};

use crate::options::{Options, read_options};
use crate::words_fault::WordsFault;
use std::alloc::Global;

/// What a command line asks for.
#[derive(Clone, Copy)]
pub enum Task<'a> {
    /// To answer the script of this file, or where there is none that of standard input.
    Answer(Option<&'a str>),
    /// To answer the generated script of a seed, with 1 to [`GREATEST_SIZE`] blocks.
    Generate { seed: u64, size: u64 },
}

/// A command line: what is asked for, and by how many workers.
#[derive(Clone, Copy)]
pub struct CommandLine<'a> {
    /// From 1 to [`MOST_WORKERS`]; 1 where the words don't say.
    pub workers: u64,
    pub task: Task<'a>,
}

// A seed and a size stand together, and without a file.
fn task_of<'a>(options: &Options<'a>) -> Result<Task<'a>, WordsFault>
    ensures ok { IfOk result (λ task. (are_together options.now.seed options.now.size options.now.file ≡ true) × IsTaskOf options.now.seed options.now.size (option_map (λ text. text.now) options.now.file) task) }
    ensures wrong { IfErr result (λ fault. (fault ≡ WordsFault.Outside) × (are_together options.now.seed options.now.size options.now.file ≡ false)) }
{
    match (options.seed, options.size, options.file) {
        (None, None, file) => Ok(Task::Answer(file)),
        (Some(seed), Some(size), None) => Ok(Task::Generate { seed, size }),
        _ => Err(WordsFault::Outside),
    }
}

/// Reads the words behind the program's name, in their order.
///
/// # Errors
///
/// `Outside` exactly where the words aren't of the form.
pub fn read<'a>(alloc: Global, words: &'a [String]) -> Result<CommandLine<'a>, WordsFault>
    ensures ok { IfOk result (λ line. IsAskedLine (map string_bytes words.entry.now) line) }
    ensures workers { IfOk result (λ line. (1 ≤ line.workers) × (line.workers ≤ MOST_WORKERS)) }
    ensures outside { IsErrOf result WordsFault.Outside → is_in_form (map string_bytes words.entry.now) ≡ false }
    ensures unnamed { IsErrOf result WordsFault.Outside → named (map string_bytes words.entry.now) ≡ None }
{
    let options = read_options(alloc, words)?;
    let task = task_of(&options)?;
    Ok(CommandLine {
        workers: options.workers.unwrap_or(1),
        task,
    })
}
