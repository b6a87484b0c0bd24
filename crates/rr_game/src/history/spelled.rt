ghost use Rattle.std.specs.Prelude.{◌≡◌, ◌↔◌, IfOk, IsOkUnless, IsTrue};
ghost use Rattle.rr_code.specs.Command.{IsCommand, text};
ghost use Rattle.rr_game.specs.History.Spelling.{IsSpelled, command_in};
ghost use Rattle.rr_game.specs.declared.history.fault.Fault.TheVariants.{OutOfMemory};
ghost use Rattle.rr_turns.specs.Words.{IsShort};

use crate::history::fault::Fault;
use rr_code::Command;
use rr_turns::LONGEST_COMMAND;
use std::alloc::Global;
use std::marker::Model;

/// A command as its words, which take less memory than the command: those that a table can keep.
#[derive(Drop)]
pub(crate) struct Spelled {
    text: Vec<u8>,
}

impl Model for Spelled {
    ghost use Rattle.rr_code.specs.declared.command.Command.{Command};
    ghost use Rattle.rr_game.specs.History.Spelling.{IsSpelled, command_in};
    ghost use Rattle.rr_turns.specs.Words.{IsShort};

    ghost Value = { Command };

    ghost view = { λ s. command_in s.text.items };

    ghost invariant = { λ s. IsSpelled s.text.items × IsShort s.text.items };
}

impl Spelled {
    /// # Errors
    ///
    /// `OutOfMemory`, also for a command of more than `LONGEST_COMMAND` bytes, which no table could keep.
    pub(crate) fn of(alloc: Global, command: &Command) -> Result<Spelled, Fault>
        requires { IsCommand command.now }
        ensures value { IfOk result (λ spelled. spelled ≡ command.now) }
        ensures memory { IsOkUnless result OutOfMemory }
    {
        let text = written(alloc, command)?;
        if is_short(text.as_slice()) {
            return Ok(Spelled { text });
        }
        Err(Fault::OutOfMemory)
    }

    /// The words, with one space between each two.
    pub(crate) fn as_bytes(&self) -> &[u8]
        ensures value { result.now ≡ text self.now }
        ensures form { IsCommand self.now }
        ensures short { IsShort result.now }
    {
        self.text.as_slice()
    }
}

/// The command that words spell. Those of a run are lent from them.
pub(crate) fn command_of(words: &[u8]) -> Command<'_>
    requires { IsSpelled words.now }
    ensures value { result ≡ command_in words.now }
    ensures form { IsCommand result }
{
    match Command::read(words) {
        Ok(command) => command,
        Err(_) => unreachable!(),
    }
}

fn written(alloc: Global, command: &Command) -> Result<Vec<u8>, Fault>
    requires { IsCommand command.now }
    ensures text { IfOk result (λ written. written.items ≡ text command.now) }
    ensures memory { IsOkUnless result OutOfMemory }
{
    let mut text = Vec::new(alloc);
    match command.write(&mut text) {
        Ok(()) => Ok(text),
        Err(_) => Err(Fault::OutOfMemory),
    }
}

/// Whether a table can keep the words.
pub(crate) fn is_short(words: &[u8]) -> bool
    ensures { IsTrue result ↔ IsShort words.now }
{
    words.len() <= LONGEST_COMMAND
}
