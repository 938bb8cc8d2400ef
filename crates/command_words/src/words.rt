// The words of a command line.
ghost use Rattle.std.specs.Prelude.{◌≡◌, map, string_bytes};
ghost use Rattle.lists_and_answers.specs.Answers.{Gives};
ghost use Rattle.command_words.specs.Words.{words_of, command_of, IsMemory};

use crate::command::Command;
use crate::jobs::job_of;
use crate::options::{Tool, tool_of};
use crate::spoken::{Spoken, WordFault};
use crate::uses::spoken_in;
use std::alloc::Global;

#[tactic(auto, unfolding(crate::specs::Words::command_of))]
fn command_of(alloc: Global, tool: Tool, count: u64, said: Spoken) -> Result<Command, WordFault>
    ensures { Gives IsMemory (λ command. command) result (command_of tool count said) }
{
    let verify = said.verify;
    let blocks = said.blocks;
    let workers = said.workers;
    let job = job_of(alloc, tool, count, said)?;
    Ok(Command {
        job,
        verify,
        blocks,
        workers,
    })
}

/// The command that the words are. Usage comes exactly where they are none, with the number of the
/// first word that doesn't fit, counted from 0, or the number of words where one is missing.
#[tactic(auto, unfolding(crate::specs::Words::words_of))]
pub fn read_words(alloc: Global, words: &[String]) -> Result<Command, WordFault>
    ensures gives { Gives IsMemory (λ command. command) result (words_of (map string_bytes words.now)) }
{
    let Some((first, rest)) = words.split_first() else {
        return Err(WordFault::Usage { word: 0 });
    };
    let Some(tool) = tool_of(first.as_str()) else {
        return Err(WordFault::Usage { word: 0 });
    };
    let said = spoken_in(alloc, tool, rest)?;
    command_of(alloc, tool, words.len() as u64, said)
}
