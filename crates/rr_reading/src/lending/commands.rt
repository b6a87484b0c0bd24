ghost use Rattle.std.specs.Prelude.{◌≡◌, ◌+◌, ◌*◌, ◌<◌, ◌≤◌, ◌++◌, ℕ, List, [], length, take, IfOk, IfErr, IfSome, IfNone, OnOk, OnErr, OnSome};
ghost use Rattle.rr_disk.specs.Disk as device;
ghost use Rattle.rr_pages.specs.Faults.{CountsFault, OnDeviceFault};
ghost use Rattle.rr_pages.specs.declared.page.TheConstants.{PAGE_BYTES};
ghost use Rattle.rr_reading.specs.declared.lending.joining.TheConstants.{MOST_WORDS};

use crate::dir::first_command;
use crate::lending::{Chains, JoiningBuffer};
use rr_disk::Disk;
use rr_pages::{Damage, Fault};

// Where the words of a command stand: in the piece that was lent last, or among the joined bytes.
#[derive(Clone, Copy)]
pub(crate) enum Found {
    Inside { start: usize, count: usize },
    Crossing { count: u16 },
}

/// The commands in chains, of which it reads those of one chain at a time. The words of one that lies within a page are
/// lent from that page's piece, and those of one that crosses the end of a page are joined first. It takes no memory.
#[derive(Drop)]
pub struct Commands {
    chains: Chains,
    // How many bytes of the piece it has read.
    at: usize,
    joined: JoiningBuffer,
}

impl Commands {
    ghost use Rattle.std.specs.Prelude.{⊤};
    ghost use Rattle.std.specs.Bool.{OnTrue, OnFalse};
    ghost use Rattle.std.specs.Borrow.{sem, follows_so};
    ghost use mathlib.Core.Option.{none};
    ghost use Rattle.rr_reading.specs.contracts.lending.commands.Commands.{the_row};
    ghost use Rattle.rr_reading.specs.Lending.Chains.{all_of, count_of, left_of, piece_of};
    ghost use Rattle.rr_reading.specs.Lending.Commands.{bytes_at, bytes_of, rest_of, steps_left_of, words_in, Begins, BeginsNone, Finds, IfCut, IsCut, LendsWords, StandsIn};

    /// The commands in what is left of the chain at hand.
    pub fn new(chains: Chains, joined: JoiningBuffer) -> Commands
        ensures rest { (file : List ℕ) → rest_of file result ≡ left_of file chains }
        ensures pages { count_of result.chains ≡ count_of chains }
        ensures all { all_of result.chains ≡ all_of chains }
    {
        let at = chains.piece().len();
        Commands { chains, at, joined }
    }

    /// How many chains there are.
    pub fn chain_count(&self) -> usize
        ensures { result ≡ length (all_of self.now.chains) }
    {
        self.chains.chain_count()
    }

    /// Goes to the first command of the chain at this place. Past the last chain there is none.
    pub fn turn_to(&mut self, index: usize)
        ensures rest { (file : List ℕ) → rest_of file self.new ≡ bytes_at file self.old index }
        ensures pages { count_of self.new.chains ≡ count_of self.old.chains }
        ensures all { all_of self.new.chains ≡ all_of self.old.chains }
    {
        self.chains.turn_to(index);
        self.at = 0;
    }

    /// Goes on to the next command, if there is one, and lends its words. Behind a fault nothing is known of what it
    /// lends.
    ///
    /// # Errors
    /// `Damaged` by `Form` where the chain ends within a command; `Disk` where a read fails.
    pub fn next<D: Disk>(&mut self, disk: &mut D) -> Result<Option<&[u8]>, Fault>
        ensures* after { sem 𝓛 (follows_so the_row the_row self.entry.ghost_name none (λ _ _. ⊤)
            (λ commands. IfOk result (λ words. D.Honest disk.new → LendsWords (D.state disk.old).content self.old words commands)
            × IfOk result (λ words. OnSome words (steps_left_of commands < steps_left_of self.old))
            × (count_of commands.chains ≡ count_of self.old.chains)
            × (all_of commands.chains ≡ all_of self.old.chains))) }
        ensures short { IfOk result (λ words. IfSome words (λ words. length words.now ≤ MOST_WORDS)) }
        ensures cut { IfErr result (λ fault. IfCut fault (D.Honest disk.new
            → IsCut (rest_of (D.state disk.old).content self.old))) }
        ensures fault { CountsFault (D.fault_count disk.old) (D.fault_count disk.new) result }
        ensures honest { D.Honest disk.new → D.Honest disk.old }
        ensures same_state { D.Honest disk.new → D.state disk.new ≡ D.state disk.old }
        ensures same_past { D.Honest disk.new → D.past disk.new ≡ D.past disk.old }
        ensures writes { D.write_count disk.new ≡ D.write_count disk.old }
        ensures syncs { D.sync_count disk.new ≡ D.sync_count disk.old }
        ensures device { OnDeviceFault result (D.Works disk.new → D.file_len disk.old < PAGE_BYTES * count_of self.old.chains) }
        ensures works { D.Works disk.new → D.Works disk.old }
        ensures same_len { D.file_len disk.new ≡ D.file_len disk.old }
    {
        match self.step(disk) {
            Ok(Some(found)) => Ok(Some(self.words(found))),
            Ok(None) => Ok(None),
            Err(fault) => Err(fault),
        }
    }

    // The words of a command that was found.
    fn words(&self, found: Found) -> &[u8]
        requires { StandsIn self.now found }
        ensures words { result.now ≡ words_in self.now found }
        ensures short { length result.now ≤ MOST_WORDS }
    {
        match found {
            Found::Inside { start, count } => &self.chains.piece()[start..start + count],
            Found::Crossing { count } => self.joined.front(count),
        }
    }

    // Finds the next command, if there is one.
    pub(crate) fn step<D: Disk>(&mut self, disk: &mut D) -> Result<Option<Found>, Fault>
        ensures finds { IfOk result (λ found. D.Honest disk.new → Finds (D.state disk.old).content self.old found self.new) }
        ensures stands { IfOk result (λ found. IfSome found (StandsIn self.new)) }
        ensures fewer { IfOk result (λ found. OnSome found (steps_left_of self.new < steps_left_of self.old)) }
        ensures cut { IfErr result (λ fault. IfCut fault (D.Honest disk.new
            → IsCut (rest_of (D.state disk.old).content self.old))) }
        ensures pages { count_of self.new.chains ≡ count_of self.old.chains }
        ensures all { all_of self.new.chains ≡ all_of self.old.chains }
        ensures fault { CountsFault (D.fault_count disk.old) (D.fault_count disk.new) result }
        ensures honest { D.Honest disk.new → D.Honest disk.old }
        ensures same_state { D.Honest disk.new → D.state disk.new ≡ D.state disk.old }
        ensures same_past { D.Honest disk.new → D.past disk.new ≡ D.past disk.old }
        ensures writes { D.write_count disk.new ≡ D.write_count disk.old }
        ensures syncs { D.sync_count disk.new ≡ D.sync_count disk.old }
        ensures device { OnDeviceFault result (D.Works disk.new → D.file_len disk.old < PAGE_BYTES * count_of self.old.chains) }
        ensures works { D.Works disk.new → D.Works disk.old }
        ensures same_len { D.file_len disk.new ≡ D.file_len disk.old }
    {
        let more = self.begin(disk)?;
        if !more {
            return Ok(None);
        }
        match self.find_inside() {
            Some(found) => Ok(Some(found)),
            None => {
                let found = self.find_crossing(disk)?;
                Ok(Some(found))
            }
        }
    }

    // Goes on to the next byte, if there is one.
    fn begin<D: Disk>(&mut self, disk: &mut D) -> Result<bool, rr_disk::Fault>
        ensures rest { IfOk result (λ more. D.Honest disk.new
            → rest_of (D.state disk.old).content self.old ≡ rest_of (D.state disk.old).content self.new) }
        ensures end { IfOk result (λ more. OnFalse more (D.Honest disk.new → rest_of (D.state disk.old).content self.old ≡ [])) }
        ensures fewer { IfOk result (λ more. steps_left_of self.new ≤ steps_left_of self.old) }
        ensures some { IfOk result (λ more. OnTrue more (self.new.at < length (piece_of self.new.chains))) }
        ensures joined { IfOk result (λ more. self.new.joined ≡ self.old.joined) }
        ensures pages { count_of self.new.chains ≡ count_of self.old.chains }
        ensures all { all_of self.new.chains ≡ all_of self.old.chains }
        ensures fault { device.CountsFault (D.fault_count disk.old) (D.fault_count disk.new) result }
        ensures honest { D.Honest disk.new → D.Honest disk.old }
        ensures same_state { D.Honest disk.new → D.state disk.new ≡ D.state disk.old }
        ensures same_past { D.Honest disk.new → D.past disk.new ≡ D.past disk.old }
        ensures writes { D.write_count disk.new ≡ D.write_count disk.old }
        ensures syncs { D.sync_count disk.new ≡ D.sync_count disk.old }
        ensures device { OnErr result (D.Works disk.new → D.file_len disk.old < PAGE_BYTES * count_of self.old.chains) }
        ensures works { D.Works disk.new → D.Works disk.old }
        ensures same_len { D.file_len disk.new ≡ D.file_len disk.old }
    {
        'pages: while self.at >= self.chains.piece().len() {
            let more = self.chains.advance(disk)?;
            if !more {
                return Ok(false);
            }
            self.at = 0;
        }
        Ok(true)
    }

    // The next command, if it lies within the piece.
    fn find_inside(&mut self) -> Option<Found>
        requires { self.old.at < length (piece_of self.old.chains) }
        ensures finds { IfSome result (λ found. (file : List ℕ) → Begins (rest_of file self.old) (words_in self.new found) (rest_of file self.new)) }
        ensures stands { IfSome result (StandsIn self.new) }
        ensures fewer { OnSome result (steps_left_of self.new < steps_left_of self.old) }
        ensures same { IfNone result (self.new ≡ self.old) }
        ensures pages { count_of self.new.chains ≡ count_of self.old.chains }
        ensures all { all_of self.new.chains ≡ all_of self.old.chains }
    {
        let rest = &self.chains.piece()[self.at..];
        let count = first_command(rest)?.len();
        let start = self.at + 2;
        self.at = start + count;
        Some(Found::Inside { start, count })
    }

    // The next command, joined.
    fn find_crossing<D: Disk>(&mut self, disk: &mut D) -> Result<Found, Fault>
        ensures finds { IfOk result (λ found. D.Honest disk.new
            → Begins (rest_of (D.state disk.old).content self.old) (words_in self.new found) (rest_of (D.state disk.old).content self.new)) }
        ensures stands { IfOk result (StandsIn self.new) }
        ensures fewer { OnOk result (steps_left_of self.new < steps_left_of self.old) }
        ensures cut { IfErr result (λ fault. IfCut fault (D.Honest disk.new
            → BeginsNone (rest_of (D.state disk.old).content self.old))) }
        ensures pages { count_of self.new.chains ≡ count_of self.old.chains }
        ensures all { all_of self.new.chains ≡ all_of self.old.chains }
        ensures fault { CountsFault (D.fault_count disk.old) (D.fault_count disk.new) result }
        ensures honest { D.Honest disk.new → D.Honest disk.old }
        ensures same_state { D.Honest disk.new → D.state disk.new ≡ D.state disk.old }
        ensures same_past { D.Honest disk.new → D.past disk.new ≡ D.past disk.old }
        ensures writes { D.write_count disk.new ≡ D.write_count disk.old }
        ensures syncs { D.sync_count disk.new ≡ D.sync_count disk.old }
        ensures device { OnDeviceFault result (D.Works disk.new → D.file_len disk.old < PAGE_BYTES * count_of self.old.chains) }
        ensures works { D.Works disk.new → D.Works disk.old }
        ensures same_len { D.file_len disk.new ≡ D.file_len disk.old }
    {
        self.gather(disk, 2)?;
        let count = self.joined.number();
        self.gather(disk, count)?;
        Ok(Found::Crossing { count })
    }

    // Joins so many of the next bytes.
    fn gather<D: Disk>(&mut self, disk: &mut D, count: u16) -> Result<(), Fault>
        ensures rest { OnOk result (D.Honest disk.new → rest_of (D.state disk.old).content self.old
            ≡ take count (bytes_of self.new.joined) ++ rest_of (D.state disk.old).content self.new) }
        ensures fewer { OnOk result (steps_left_of self.new + count ≤ steps_left_of self.old) }
        ensures cut { IfErr result (λ fault. IfCut fault (D.Honest disk.new
            → length (rest_of (D.state disk.old).content self.old) < count)) }
        ensures pages { count_of self.new.chains ≡ count_of self.old.chains }
        ensures all { all_of self.new.chains ≡ all_of self.old.chains }
        ensures fault { CountsFault (D.fault_count disk.old) (D.fault_count disk.new) result }
        ensures honest { D.Honest disk.new → D.Honest disk.old }
        ensures same_state { D.Honest disk.new → D.state disk.new ≡ D.state disk.old }
        ensures same_past { D.Honest disk.new → D.past disk.new ≡ D.past disk.old }
        ensures writes { D.write_count disk.new ≡ D.write_count disk.old }
        ensures syncs { D.sync_count disk.new ≡ D.sync_count disk.old }
        ensures device { OnDeviceFault result (D.Works disk.new → D.file_len disk.old < PAGE_BYTES * count_of self.old.chains) }
        ensures works { D.Works disk.new → D.Works disk.old }
        ensures same_len { D.file_len disk.new ≡ D.file_len disk.old }
    {
        let count = count as usize;
        let mut done = 0;
        'bytes: while done < count {
            let more = self.begin(disk)?;
            if !more {
                return Err(Fault::Damaged(Damage::Form));
            }
            done += self.join(done, count);
        }
        Ok(())
    }

    // Joins as many of the piece's bytes as are wanted.
    fn join(&mut self, done: usize, count: usize) -> usize
        requires some { self.old.at < length (piece_of self.old.chains) }
        requires room { (done < count) × (count ≤ MOST_WORDS) }
        ensures some { 0 < result }
        ensures within { done + result ≤ count }
        ensures moved { (file : List ℕ) → take done (bytes_of self.old.joined) ++ rest_of file self.old
            ≡ take (done + result) (bytes_of self.new.joined) ++ rest_of file self.new }
        ensures fewer { steps_left_of self.new + result ≤ steps_left_of self.old }
        ensures pages { count_of self.new.chains ≡ count_of self.old.chains }
        ensures all { all_of self.new.chains ≡ all_of self.old.chains }
    {
        let rest = &self.chains.piece()[self.at..];
        let taken = rest.len().min(count - done);
        self.joined.put(done, &rest[..taken]);
        self.at += taken;
        taken
    }
}
