//! A table that is taken back.
ghost use Rattle.rr_game.specs.History.Verdict.{IsOfForm};

use crate::entries::have_words;
use crate::games::{command, kit, players, spelled};
use rr_code::Command;
use rr_game::Game;
use rr_game::history::{Fault, KeptCommands, Request, Snapshot, Table};
use rr_kit::Kit;
use std::alloc::Global;
use std::process::Abort;
use std::rc::RcSlice;

/// The opening of a table of six.
const SIX_PLAYERS: &[u8] = b"open a b c d e f";

/// What is asked of a table.
#[derive(Clone, Copy)]
enum Ask {
    /// A command of these words.
    Play(&'static [u8]),
    /// To go back to the end of this turn.
    Back(u64),
    /// To forget the turns before this one.
    Forget(u64),
}

use Ask::{Back, Forget, Play};

/// A table with its kit.
#[derive(Drop)]
struct Club {
    kit: Kit,
    table: Table,
}

// The calls below have almost no contracts, so that what a test does costs its proof little.

impl Club {
    /// A table that is opened by these words.
    fn open(rt: &impl Abort, alloc: Global, words: &[u8]) -> Club {
        let kit = kit(rt, alloc);
        let table = Table::open(alloc, &players(rt, words), &kit).expect(rt, "a table");
        Club { kit, table }
    }

    fn play(
        &mut self,
        rt: &impl Abort,
        alloc: Global,
        stamp: u64,
        words: &[u8],
    ) -> Result<(), Fault> {
        let command = command(rt, words);
        self.table.step(alloc, stamp, &command, &self.kit)
    }

    fn take_back(&mut self, alloc: Global, stamp: u64, turn: u64) -> Result<(), Fault> {
        self.table.take_back(alloc, stamp, turn, &self.kit)
    }

    fn forget(&mut self, stamp: u64, turn: u64) -> Result<(), Fault> {
        self.table.forget(stamp, turn)
    }

    /// What comes of what is asked with this stamp.
    fn ask(&mut self, rt: &impl Abort, alloc: Global, stamp: u64, ask: Ask) -> Result<(), Fault> {
        match ask {
            Play(words) => self.play(rt, alloc, stamp, words),
            Back(turn) => self.take_back(alloc, stamp, turn),
            Forget(turn) => self.forget(stamp, turn),
        }
    }

    /// Does what is asked with the table's stamp.
    fn take(&mut self, rt: &impl Abort, alloc: Global, ask: Ask) {
        let stamp = self.table.stamp();
        self.ask(rt, alloc, stamp, ask).expect(rt, "no fault");
    }

    fn take_all(&mut self, rt: &impl Abort, alloc: Global, all: &[Ask]) {
        for ask in all {
            self.take(rt, alloc, *ask);
        }
    }

    /// Judges a command first, as where its record is kept before it counts.
    fn play_once_judged(&mut self, rt: &impl Abort, alloc: Global, words: &[u8]) {
        let stamp = self.table.stamp();
        let request = Request::Play(command(rt, words));
        let change = self
            .table
            .judge(alloc, stamp, &request, &self.kit)
            .expect(rt, "a lawful command");
        self.table.reserve(&change).expect(rt, "room for a command");
        self.table.take(change);
    }

    /// How many commands are played to work out what the table is to be.
    fn plays_of(&self, rt: &impl Abort, alloc: Global, ask: Ask) -> usize {
        match ask {
            Play(words) => self.plays_of_request(rt, alloc, &Request::Play(command(rt, words))),
            Back(turn) => self.plays_of_request(rt, alloc, &Request::Back(turn)),
            Forget(turn) => self.plays_of_request(rt, alloc, &Request::Forget(turn)),
        }
    }

    fn plays_of_request(&self, rt: &impl Abort, alloc: Global, request: &Request<Command>) -> usize
        requires { IsOfForm request.now }
    {
        let stamp = self.table.stamp();
        let change = self.table.judge(alloc, stamp, request, &self.kit);
        change.expect(rt, "a lawful request").plays()
    }

    /// Whether the entries of a turn have these words, or are refused so.
    fn reads(
        &self,
        rt: &impl Abort,
        alloc: Global,
        turn: u64,
        wanted: Result<&[u8], Fault>,
    ) -> bool {
        let players = self.table.game().players();
        match (self.table.book(alloc, turn, &self.kit), wanted) {
            (Ok(books), Ok(words)) => have_words(rt, alloc, players, books.as_slice(), words),
            (Err(found), Err(fault)) => found == fault,
            _ => false,
        }
    }

    /// Goes on with this floor, and stamp 128.
    fn resume(&mut self, floor: u64) {
        self.table.resume(floor, 128);
    }
}

/// A table of a and b that keeps so many commands: the opening, a purchase, and then one pass behind the other, each of
/// which ends a turn.
fn club_of_passes(rt: &impl Abort, alloc: Global, count: usize) -> Club {
    let mut club = Club::open(rt, alloc, b"open a b");
    club.take(rt, alloc, Play(b"buy a"));
    for number in 2..count {
        let pass = if number % 2 == 0 {
            Play(b"pass b")
        } else {
            Play(b"pass a")
        };
        club.take(rt, alloc, pass);
    }
    club
}

/// The bytes of its game.
fn bytes_of_passes(rt: &impl Abort, alloc: Global, count: usize) -> Vec<u8> {
    let club = club_of_passes(rt, alloc, count);
    spelled(rt, alloc, &club.table.game().parts())
}

/// Whether a table's game is that of a table on which its commands, which are passes, were played anew.
fn is_as_anew(rt: &impl Abort, alloc: Global, table: &Table) -> bool {
    let anew = bytes_of_passes(rt, alloc, table.commands().len());
    spelled(rt, alloc, &table.game().parts()).as_slice() == anew.as_slice()
}

/// The stamp of a table, its floor, how many turns have ended, and how many commands there are.
type Counts = (u64, u64, u64, usize);

/// Whether a table has these counts. Its game has as many turns.
fn has_counts(table: &Table, counts: Counts) -> bool {
    let (stamp, floor, turns, commands) = counts;
    let found = [
        table.stamp(),
        table.floor(),
        table.turns(),
        table.game().turns(),
    ];
    (found, table.commands().len()) == ([stamp, floor, turns, turns], commands)
}

/// How many snapshots there are, and the counts of the first and the last.
fn snapshots_of(table: &Table) -> (usize, usize, usize) {
    let snapshots = table.snapshots();
    let count = snapshots.len();
    if count == 0 {
        return (0, 0, 0);
    }
    (count, snapshots[0].played(), snapshots[count - 1].played())
}

/// Whether the table's one command is its opening.
fn has_its_opening_alone(table: &Table) -> bool {
    let commands = table.commands();
    if commands.len() != 1 {
        return false;
    }
    let words = commands.words().get(0);
    words == Some(SIX_PLAYERS) && matches!(commands.command(0), Command::Open { .. })
}

/// The words of the first so many commands of a table, kept again.
fn kept_again(rt: &impl Abort, alloc: Global, table: &Table, count: usize) -> KeptCommands {
    let mut kept = KeptCommands::new(alloc);
    for place in 0..count {
        let words = table.commands().words().get(place);
        let is_command = kept.keep(words.expect(rt, "a command")).expect(rt, "room");
        assert!(rt; is_command);
    }
    kept
}

/// The first snapshot of a table.
fn first_snapshot<'a>(rt: &impl Abort, table: &'a Table) -> &'a Snapshot {
    table.snapshots().first().expect(rt, "a snapshot")
}

fn game_of(rt: &impl Abort, alloc: Global, snapshot: &Snapshot) -> Game {
    snapshot.game(alloc).expect(rt, "memory")
}

/// Whether a table is told by so many of its commands and the game of its first snapshot.
fn is_told_by(rt: &impl Abort, alloc: Global, table: &Table, count: usize) -> bool {
    let game = game_of(rt, alloc, first_snapshot(rt, table));
    let kept = kept_again(rt, alloc, table, count);
    Table::of_kept(kept, game).is_some()
}

/// Whether the bytes are those of a snapshot.
fn are_of_a_snapshot(rt: &impl Abort, alloc: Global, bytes: &[u8]) -> bool {
    let shared = RcSlice::from_slice(alloc, bytes).expect(rt, "memory");
    Snapshot::read(&shared).expect(rt, "memory").is_some()
}

/// Whether a snapshot is read from all bytes of the first one but the last.
fn is_read_short(rt: &impl Abort, alloc: Global, table: &Table) -> bool {
    let bytes = first_snapshot(rt, table).bytes();
    let front = &bytes[..bytes.len() - 1];
    are_of_a_snapshot(rt, alloc, front)
}

/// What holds of a table.
#[derive(Clone, Copy)]
enum Fact {
    Has(Counts),
    /// It has so many snapshots, of which the first and the last are of so many commands.
    HasSnapshots(usize, usize, usize),
    /// Whether it has those that it is to have.
    HasItsSnapshots(bool),
    /// Its commands are passes, and its game is theirs.
    IsAsAnew,
    /// Its opening is its one command.
    IsOpening,
    /// It isn't told by so many of its commands and the game of its first snapshot.
    IsNotToldBy(usize),
    /// Its first snapshot isn't read from fewer bytes.
    ReadsNoFewerBytes,
}

use Fact::{
    Has, HasItsSnapshots, HasSnapshots, IsAsAnew, IsNotToldBy, IsOpening, ReadsNoFewerBytes,
};

fn holds(rt: &impl Abort, alloc: Global, table: &Table, fact: Fact) -> bool {
    match fact {
        Has(counts) => has_counts(table, counts),
        HasSnapshots(count, first, last) => snapshots_of(table) == (count, first, last),
        HasItsSnapshots(wanted) => table.has_its_snapshots() == wanted,
        IsAsAnew => is_as_anew(rt, alloc, table),
        IsOpening => has_its_opening_alone(table),
        IsNotToldBy(count) => !is_told_by(rt, alloc, table, count),
        ReadsNoFewerBytes => !is_read_short(rt, alloc, table),
    }
}

/// What comes of what is asked, and what is so then.
#[derive(Clone, Copy)]
enum Step {
    /// What is asked with this stamp has this outcome, and the table has these counts behind it.
    Gets(u64, Ask, Result<(), Fault>, Counts),
    /// What is asked with the table's stamp is done.
    Takes(Ask),
    /// A command of these words is judged and then taken.
    Judges(&'static [u8]),
    /// What is asked is worked out by so many plays.
    Plays(Ask, usize),
    /// The entries of this turn have these words, or are refused so.
    Reads(u64, Result<&'static [u8], Fault>),
    /// The table goes on with this floor.
    Resumes(u64),
    /// This holds of it.
    Then(Fact),
}

use Step::{Gets, Judges, Plays, Reads, Resumes, Takes, Then};

fn is_right(rt: &impl Abort, alloc: Global, club: &mut Club, step: Step) -> bool {
    match step {
        Gets(stamp, ask, wanted, counts) => {
            club.ask(rt, alloc, stamp, ask) == wanted && has_counts(&club.table, counts)
        }
        Takes(ask) => {
            club.take(rt, alloc, ask);
            true
        }
        Judges(words) => {
            club.play_once_judged(rt, alloc, words);
            true
        }
        Plays(ask, count) => club.plays_of(rt, alloc, ask) == count,
        Reads(turn, wanted) => club.reads(rt, alloc, turn, wanted),
        Resumes(floor) => {
            club.resume(floor);
            true
        }
        Then(fact) => holds(rt, alloc, &club.table, fact),
    }
}

/// Whether the steps go as they say, one behind the other.
fn goes_so(rt: &impl Abort, alloc: Global, club: Club, steps: &[Step]) -> bool {
    let mut club = club;
    let mut right = true;
    for step in steps {
        right = right && is_right(rt, alloc, &mut club, *step);
    }
    right
}

fn six_players(rt: &impl Abort, alloc: Global) -> Club {
    Club::open(rt, alloc, SIX_PLAYERS)
}

static NINE_TURNS: [Ask; 9] = [
    Play(b"pass a"),
    Play(b"pass b"),
    Play(b"bid c C&SL 45"),
    Play(b"pass d"),
    Play(b"pass e"),
    Play(b"pass f"),
    Play(b"buy a"),
    Play(b"pass b"),
    Play(b"pass c"),
];

/// Nine turns of the auction, with stamp 57.
fn club_of_nine_turns(rt: &impl Abort, alloc: Global) -> Club {
    let mut club = six_players(rt, alloc);
    for _ in 0..47 {
        club.take(rt, alloc, Back(0));
    }
    club.take_all(rt, alloc, &NINE_TURNS);
    club
}

static TAKEN_BACK: [Step; 3] = [
    Then(Has((57, 0, 9, 10))),
    Gets(57, Back(2), Ok(()), (58, 0, 2, 3)),
    Gets(58, Back(9), Err(Fault::TurnNotKept), (58, 0, 2, 3)),
];

#[test]
fn a_table_is_taken_back_to_a_kept_turn(rt: HostRuntime) {
    let rt = &rt;
    let club = club_of_nine_turns(rt, rt.alloc());
    assert!(rt; goes_so(rt, rt.alloc(), club, &TAKEN_BACK));
}

static FORGOTTEN: [Step; 5] = [
    Gets(57, Forget(3), Ok(()), (58, 3, 9, 10)),
    Gets(58, Back(2), Err(Fault::TurnNotKept), (58, 3, 9, 10)),
    Gets(58, Forget(10), Err(Fault::TurnNotKept), (58, 3, 9, 10)),
    Gets(58, Back(3), Ok(()), (59, 3, 3, 4)),
    Gets(59, Play(b"pass d"), Ok(()), (60, 3, 4, 5)),
];

#[test]
fn forgotten_turns_are_not_kept(rt: HostRuntime) {
    let rt = &rt;
    let club = club_of_nine_turns(rt, rt.alloc());
    assert!(rt; goes_so(rt, rt.alloc(), club, &FORGOTTEN));
}

static TAKEN_ONCE: [Step; 5] = [
    Gets(1, Play(b"pass a"), Ok(()), (2, 0, 1, 2)),
    Gets(1, Play(b"pass a"), Err(Fault::StaleStamp(2)), (2, 0, 1, 2)),
    Gets(2, Back(0), Ok(()), (3, 0, 0, 1)),
    Gets(1, Play(b"pass a"), Err(Fault::StaleStamp(3)), (3, 0, 0, 1)),
    Gets(3, Play(b"pass a"), Ok(()), (4, 0, 1, 2)),
];

#[test]
fn a_command_is_taken_once(rt: HostRuntime) {
    let rt = &rt;
    let club = six_players(rt, rt.alloc());
    assert!(rt; goes_so(rt, rt.alloc(), club, &TAKEN_ONCE));
}

static TURN_UNDER_WAY: [Step; 10] = [
    Takes(Play(b"buy a")),
    Takes(Play(b"buy b")),
    Takes(Play(b"buy c")),
    Takes(Play(b"buy d")),
    Takes(Play(b"buy e")),
    Gets(6, Play(b"pass f"), Ok(()), (7, 0, 6, 7)),
    Gets(7, Play(b"buy a"), Ok(()), (8, 0, 6, 8)),
    Gets(8, Back(6), Ok(()), (9, 0, 6, 7)),
    Gets(9, Play(b"buy a"), Ok(()), (10, 0, 6, 8)),
    Gets(10, Play(b"par a B&O 100"), Ok(()), (11, 0, 7, 9)),
];

/// The B&O's par ends the turn that buys the private, and a take-back drops a purchase without its par.
#[test]
fn a_turn_under_way_is_dropped(rt: HostRuntime) {
    let rt = &rt;
    let club = six_players(rt, rt.alloc());
    assert!(rt; goes_so(rt, rt.alloc(), club, &TURN_UNDER_WAY));
}

static READ: [Step; 15] = [
    Reads(1, Ok(b"")),
    Takes(Play(b"buy a")),
    Takes(Play(b"pass b")),
    Reads(1, Ok(b" move SV a ; pay a bank 20")),
    Reads(2, Ok(b"")),
    Reads(3, Ok(b"")),
    Reads(4, Err(Fault::TurnNotKept)),
    Takes(Back(1)),
    Takes(Play(b"buy b")),
    Reads(2, Ok(b" move C&SL b ; pay b bank 40")),
    Takes(Forget(1)),
    Reads(0, Err(Fault::TurnNotKept)),
    Reads(1, Err(Fault::TurnNotKept)),
    Reads(2, Ok(b" move C&SL b ; pay b bank 40")),
    Reads(3, Ok(b"")),
];

#[test]
fn the_entries_of_kept_turns_are_read(rt: HostRuntime) {
    let rt = &rt;
    let club = six_players(rt, rt.alloc());
    assert!(rt; goes_so(rt, rt.alloc(), club, &READ));
}

static JUDGED: [Step; 2] = [Judges(b"pass a"), Then(Has((2, 0, 1, 2)))];

#[test]
fn a_command_is_judged_before_it_counts(rt: HostRuntime) {
    let rt = &rt;
    let club = six_players(rt, rt.alloc());
    assert!(rt; goes_so(rt, rt.alloc(), club, &JUDGED));
}

#[test]
fn laws_are_called() {
    rr_game::history::laws::requests_have_one_verdict();
    rr_game::history::laws::tables_go_on();
    rr_game::history::laws::back_goes_to_its_turn();
    rr_game::history::laws::back_keeps_its_count();
    rr_game::history::laws::back_to_the_present_turn();
    rr_game::history::laws::accepted_turns_are_kept();
    rr_game::history::laws::back_plays_few();
    rr_game::history::laws::turns_make_the_book();
    rr_game::history::laws::spacing();
    rr_turns::laws::stamps_never_fall::<u8>();
    rr_turns::laws::floors_never_fall::<u8>();
    rr_turns::laws::back_ends_with_its_turn::<u8>();
    rr_turns::laws::one_front_ends_with_a_turn::<u8>();
    rr_turns::laws::back_to_the_present_turn::<u8>();
    rr_turns::laws::ended_turns_stay::<u8>();
    rr_turns::laws::back_keeps_its_count::<u8>();
    rr_turns::laws::ends_grow_at_the_end::<u8>();
    rr_turns::laws::each_turn_has_its_end::<u8>();
    rr_turns::laws::back_keeps_its_ends::<u8>();
}

static OPENED: [Step; 1] = [Then(IsOpening)];

#[test]
fn the_opening_is_spelled(rt: HostRuntime) {
    let rt = &rt;
    let club = six_players(rt, rt.alloc());
    assert!(rt; goes_so(rt, rt.alloc(), club, &OPENED));
}

static PLAYED_ON: [Step; 16] = [
    Then(IsAsAnew),
    Takes(Back(131)),
    Then(IsAsAnew),
    Takes(Back(127)),
    Then(IsAsAnew),
    Takes(Back(126)),
    Then(IsAsAnew),
    Takes(Back(64)),
    Then(IsAsAnew),
    Takes(Back(63)),
    Then(IsAsAnew),
    Takes(Back(62)),
    Then(IsAsAnew),
    Takes(Back(5)),
    Then(IsAsAnew),
    Then(Has((140, 0, 5, 6))),
];

#[test]
fn a_take_back_plays_on_from_a_snapshot(rt: HostRuntime) {
    let rt = &rt;
    let club = club_of_passes(rt, rt.alloc(), 133);
    assert!(rt; goes_so(rt, rt.alloc(), club, &PLAYED_ON));
}

/// Of a table that keeps 130 commands, of which each but the opening ended one turn: its snapshots are of 64 and of 128
/// commands.
static PLAYS: [Step; 9] = [
    Plays(Play(b"pass b"), 1),
    Plays(Forget(100), 0),
    Plays(Back(129), 2),
    Plays(Back(128), 1),
    Plays(Back(127), 0),
    Plays(Back(126), 63),
    Plays(Back(63), 0),
    Plays(Back(62), 62),
    Plays(Back(0), 0),
];

#[test]
fn a_change_tells_how_many_commands_were_played(rt: HostRuntime) {
    let rt = &rt;
    let club = club_of_passes(rt, rt.alloc(), 130);
    assert!(rt; goes_so(rt, rt.alloc(), club, &PLAYS));
}

static SNAPSHOTS: [Step; 3] = [
    Then(HasSnapshots(2, 64, 128)),
    Takes(Forget(127)),
    Then(HasSnapshots(1, 128, 128)),
];

#[test]
fn a_snapshot_stands_at_each_64th_command(rt: HostRuntime) {
    let rt = &rt;
    let club = club_of_passes(rt, rt.alloc(), 130);
    assert!(rt; goes_so(rt, rt.alloc(), club, &SNAPSHOTS));
}

static DROPPED: [Step; 4] = [
    Takes(Back(126)),
    Then(HasSnapshots(1, 64, 64)),
    Takes(Back(62)),
    Then(HasSnapshots(0, 0, 0)),
];

#[test]
fn a_take_back_drops_the_snapshots_above(rt: HostRuntime) {
    let rt = &rt;
    let club = club_of_passes(rt, rt.alloc(), 129);
    assert!(rt; goes_so(rt, rt.alloc(), club, &DROPPED));
}

/// The last snapshot of a table, read from its bytes.
fn last_snapshot(rt: &impl Abort, table: &Table) -> Snapshot {
    let last = table.snapshots().last().expect(rt, "a snapshot");
    let read = Snapshot::read(last.shared()).expect(rt, "memory");
    read.expect(rt, "a snapshot of its bytes")
}

/// The table again by the bytes of its last snapshot and the words of the commands before that, as a file has both.
fn told_again(rt: &impl Abort, alloc: Global, table: &Table) -> Table {
    let snapshot = last_snapshot(rt, table);
    let game = game_of(rt, alloc, &snapshot);
    let mut kept = kept_again(rt, alloc, table, snapshot.played());
    kept.keep_snapshot(snapshot).expect(rt, "memory");
    Table::of_kept(kept, game).expect(rt, "a table")
}

/// A table of 130 commands, told again.
fn club_told_again(rt: &impl Abort, alloc: Global) -> Club {
    let Club { kit, table } = club_of_passes(rt, alloc, 130);
    let again = told_again(rt, alloc, &table);
    Club { kit, table: again }
}

static TOLD_AGAIN: [Step; 3] = [
    Then(Has((128, 0, 127, 128))),
    Then(IsAsAnew),
    Then(HasSnapshots(1, 128, 128)),
];

#[test]
fn a_table_is_told_again_by_its_last_snapshot(rt: HostRuntime) {
    let rt = &rt;
    let club = club_told_again(rt, rt.alloc());
    assert!(rt; goes_so(rt, rt.alloc(), club, &TOLD_AGAIN));
}

static WITH_ITS_SNAPSHOTS: [Step; 1] = [Then(HasItsSnapshots(true))];

/// Without the first snapshot, with no such floor, and with one at which it isn't kept.
static WITHOUT_THE_FIRST: [Step; 5] = [
    Then(HasItsSnapshots(false)),
    Resumes(128),
    Then(HasItsSnapshots(false)),
    Resumes(127),
    Then(HasItsSnapshots(true)),
];

#[test]
fn a_table_tells_whether_it_has_its_snapshots(rt: HostRuntime) {
    let rt = &rt;
    let club = club_of_passes(rt, rt.alloc(), 130);
    assert!(rt; goes_so(rt, rt.alloc(), club, &WITH_ITS_SNAPSHOTS));
    let club = club_told_again(rt, rt.alloc());
    assert!(rt; goes_so(rt, rt.alloc(), club, &WITHOUT_THE_FIRST));
}

static TOLD_BY_FEWER: [Step; 1] = [Then(IsNotToldBy(63))];

#[test]
fn a_table_is_told_by_a_game_of_its_commands(rt: HostRuntime) {
    let rt = &rt;
    let club = club_of_passes(rt, rt.alloc(), 64);
    assert!(rt; goes_so(rt, rt.alloc(), club, &TOLD_BY_FEWER));
}

#[test]
fn only_words_of_commands_are_kept(rt: HostRuntime) {
    let mut kept = KeptCommands::new(rt.alloc());
    let back = kept.keep(b"back 3");
    let pass = kept.keep(b"pass a");
    assert!(rt; (back, pass, kept.len(), kept.snapshots().len()) == (Ok(false), Ok(true), 1, 0));
}

static CUT_SHORT: [Step; 1] = [Then(ReadsNoFewerBytes)];

#[test]
fn other_bytes_are_no_snapshot(rt: HostRuntime) {
    let rt = &rt;
    let club = club_of_passes(rt, rt.alloc(), 64);
    assert!(rt; goes_so(rt, rt.alloc(), club, &CUT_SHORT));
}
