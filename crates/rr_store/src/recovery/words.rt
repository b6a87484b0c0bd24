//! Whether the words of the kept commands are words that lines have behind a table's name. That needs no rule of the
//! game.
ghost use Rattle.std.specs.Prelude.{◌≡◌, ◌≢◌, ◌⊎◌, ◌↔◌, ◌<◌, ℕ, List, [], ◌∷◌, length, IsTrue, IfOk, IfErr, MatchOption};
ghost use Rattle.rr_code.specs.Command.{SpellsCommand};
ghost use Rattle.rr_code.specs.declared.command.Command.{Command as Played};
ghost use Rattle.rr_reading.specs.Held.{tables_in};
ghost use Rattle.rr_reading.specs.Lending.Chains.{all_of};
ghost use Rattle.rr_reading.specs.Lending.Commands.{bytes_at, steps_left_of};
ghost use Rattle.rr_store.specs.Recovery.Fault.{IsOfDevice};
ghost use Rattle.rr_store.specs.Recovery.Reading.{OnlyReads};
ghost use Rattle.rr_store.specs.Recovery.Spelling.{ReadsWords, TellsSpelled, of_cut};
ghost use Rattle.rr_store.specs.Recovery.Told.{EachHas, IsSpelled, SpellsBest, SpellsRequest, TellsWords};
ghost use Rattle.rr_roster.specs.declared.company.Corp.{Corp};
ghost use Rattle.rr_turns.specs.declared.request.Request.{Request};
ghost use Rattle.rr_turns.specs.declared.request.Request.TheVariants.{Back, Forget};
ghost use Rattle.rr_words.specs.Line.{words_of};

use crate::recovery::Fault;
use rr_code::Command;
use rr_disk::Disk;
use rr_orders::scan::{Words, read_corp};
use rr_reading::dir::TableEntry;
use rr_reading::lending::Commands;
use rr_words::number;

// What stands next in a chain.
#[derive(Clone, Copy)]
pub(crate) enum Next {
    // A command whose words a line has.
    Spelled,
    // One whose words none has.
    Unspelled,
    End,
    // The chain ends within a command.
    Cut,
}

/// Whether the words of each table's kept commands are a request's, or those of `best`. It takes no memory.
pub(crate) fn tell_words<D: Disk>(
    disk: &mut D,
    entries: &[TableEntry],
    chains: &mut Commands,
) -> Result<bool, Fault>
    ensures told { IfOk result (λ told. D.Honest disk.new → (IsTrue told ↔ ((length entries.now ≡ length (all_of chains.old.chains))
        × EachHas TellsWords entries.now (tables_in (D.state disk.old).content chains.old)))) }
    ensures as_many { IfOk result (λ told. IsTrue told → length entries.now ≡ length (all_of chains.old.chains)) }
    ensures only { IfErr result IsOfDevice }
    ensures only_reads { OnlyReads D.Disk disk.old disk.new chains.old chains.new result }
{
    if entries.len() != chains.chain_count() {
        return Ok(false);
    }
    for (index, entry) in entries.iter().enumerate() {
        let told = tells_words(disk, entry, chains, index)?;
        if !told {
            return Ok(false);
        }
    }
    Ok(true)
}

fn tells_words<D: Disk>(
    disk: &mut D,
    entry: &TableEntry,
    chains: &mut Commands,
    index: usize,
) -> Result<bool, Fault>
    ensures told { IfOk result (λ told. D.Honest disk.new
        → (IsTrue told ↔ TellsWords entry.now (bytes_at (D.state disk.old).content chains.old index))) }
    ensures only { IfErr result IsOfDevice }
    ensures only_reads { OnlyReads D.Disk disk.old disk.new chains.old chains.new result }
{
    chains.turn_to(index);
    let mut left = entry.kept;
    'commands: loop {
        let next = read_words(disk, chains)?;
        match next {
            Next::Spelled => {
                if left == 0 {
                    return Ok(false);
                }
                left -= 1;
            }
            Next::End => return Ok(left == 0),
            Next::Unspelled => return Ok(false),
            Next::Cut => return Ok(false),
        }
    }
}

/// Goes on to the next command, if there is one, and looks at its words.
fn read_words<D: Disk>(disk: &mut D, chains: &mut Commands) -> Result<Next, Fault>
    ensures reads { IfOk result (λ next. D.Honest disk.new → ReadsWords (D.state disk.old).content chains.old next chains.new) }
    ensures fewer { IfOk result (λ next. next ≡ Next.Spelled → steps_left_of chains.new < steps_left_of chains.old) }
    ensures only { IfErr result IsOfDevice }
    ensures only_reads { OnlyReads D.Disk disk.old disk.new chains.old chains.new result }
{
    match chains.next(disk) {
        Ok(Some(words)) => Ok(spelled(words)),
        Ok(None) => Ok(Next::End),
        Err(fault) => cut(fault),
    }
}

fn spelled(words: &[u8]) -> Next
    ensures { TellsSpelled words.now result }
{
    if is_spelled(words) {
        Next::Spelled
    } else {
        Next::Unspelled
    }
}

// A chain that ends within a command is judged by its caller.
fn cut(fault: rr_pages::Fault) -> Result<Next, Fault>
    ensures { result ≡ of_cut fault }
{
    match fault {
        rr_pages::Fault::Disk(fault) => Err(Fault::Disk(fault)),
        _ => Ok(Next::Cut),
    }
}

/// Whether the words are those of a request, or of `best`.
fn is_spelled(words: &[u8]) -> bool
    ensures { IsTrue result ↔ IsSpelled words.now }
{
    spells_request(words) || spells_best(words)
}

fn spells_request(words: &[u8]) -> bool
    ensures { IsTrue result ↔ ((asked : Request Played) × SpellsRequest words.now asked) }
{
    spells_command(words) || takes_back(words)
}

fn spells_command(words: &[u8]) -> bool
    ensures { IsTrue result ↔ ((command : Played) × SpellsCommand words.now command) }
{
    Command::read(words).is_ok()
}

/// Whether the words take a table back, or let it forget.
fn takes_back(words: &[u8]) -> bool
    ensures { IsTrue result ↔ (((turn : ℕ) × SpellsRequest words.now (Back turn))
        ⊎ ((turn : ℕ) × SpellsRequest words.now (Forget turn))) }
{
    spells_back(words) || spells_forget(words)
}

fn spells_back(words: &[u8]) -> bool
    ensures { IsTrue result ↔ ((turn : ℕ) × SpellsRequest words.now (Back turn)) }
{
    match only_behind(b"back", words) {
        Some(turn) => number(turn).is_some(),
        None => false,
    }
}

fn spells_forget(words: &[u8]) -> bool
    ensures { IsTrue result ↔ ((turn : ℕ) × SpellsRequest words.now (Forget turn)) }
{
    match only_behind(b"forget", words) {
        Some(turn) => number(turn).is_some(),
        None => false,
    }
}

fn spells_best(words: &[u8]) -> bool
    ensures { IsTrue result ↔ ((corp : Corp) × SpellsBest words.now corp) }
{
    match only_behind(b"best", words) {
        Some(corp) => read_corp(corp).is_some(),
        None => false,
    }
}

/// The only word behind this one, with which the words begin.
fn only_behind<'a>(head: &[u8], words: &'a [u8]) -> Option<&'a [u8]>
    ensures { MatchOption result
        ((word : List ℕ) → words_of words.now ≢ head.now ∷ word ∷ [])
        (λ word. words_of words.now ≡ head.now ∷ word.now ∷ []) }
{
    let mut words = Words::of(words);
    if words.next()? != head {
        return None;
    }
    words.last()
}
