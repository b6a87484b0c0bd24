//! What tables are to keep behind commands of the run, counted here, in plain values.

/// What a command makes of its table's turns.
#[derive(Clone, Copy)]
pub(crate) enum Step {
    /// It is kept within a turn.
    Play,
    /// It is kept, and ends a turn.
    EndTurn,
    Back(u64),
    Forget(u64),
}

// No table takes so many commands.
const MOST: usize = 300;

/// Numbers in a row.
#[derive(Clone, Copy)]
pub(crate) struct Row {
    numbers: [usize; MOST],
    count: usize,
}

impl Row {
    fn push(&mut self, number: usize) {
        if self.count < MOST {
            self.numbers[self.count] = number;
        }
        self.count = self.count.saturating_add(1);
    }

    fn truncate(&mut self, count: usize) {
        self.count = self.count.min(count);
    }

    pub(crate) fn get(&self, place: usize) -> Option<usize> {
        if place < self.count && place < MOST {
            return Some(self.numbers[place]);
        }
        None
    }

    pub(crate) fn len(&self) -> usize {
        self.count
    }
}

/// A table: its stamp, its floor, the places of the commands that it keeps, and how many of these are kept at the end
/// of each turn.
#[derive(Clone, Copy)]
pub(crate) struct Side {
    pub(crate) stamp: u64,
    pub(crate) floor: u64,
    pub(crate) kept: Row,
    ends: Row,
}

impl Side {
    /// The turns that have ended.
    pub(crate) fn turns(&self) -> u64 {
        self.ends.len() as u64
    }

    /// How many commands are kept at the end of a turn: at that of turn 0 the opening.
    pub(crate) fn kept_at(&self, turn: u64) -> usize {
        match turn.checked_sub(1) {
            None => 1,
            Some(before) => self.ends.get(before as usize).unwrap_or(0),
        }
    }

    /// The command that was kept last.
    pub(crate) fn last(&self) -> Option<usize> {
        self.kept.get(self.kept.len().checked_sub(1)?)
    }

    /// To how many turns it can be taken back, from its floor on: to none before it is open.
    pub(crate) fn ways_back(&self) -> u64 {
        match self.last() {
            None => 0,
            Some(_) => self.turns().saturating_sub(self.floor).saturating_add(1),
        }
    }

    /// Goes on by the command at this place.
    pub(crate) fn take(&mut self, place: usize, step: Step) {
        self.stamp = self.stamp.saturating_add(1);
        match step {
            Step::Play => self.kept.push(place),
            Step::EndTurn => {
                self.kept.push(place);
                self.ends.push(self.kept.len());
            }
            Step::Back(turn) => self.go_back(turn),
            Step::Forget(turn) => self.floor = turn,
        }
    }

    fn go_back(&mut self, turn: u64) {
        let count = self.kept_at(turn);
        self.kept.truncate(count);
        self.ends.truncate(turn as usize);
    }
}

/// The tables in the order of opening, and how many commands they took together.
#[derive(Clone, Copy)]
pub(crate) struct World {
    pub(crate) count: usize,
    pub(crate) sides: [Side; 3],
}

const EMPTY: Row = Row {
    numbers: [0; MOST],
    count: 0,
};

const NEW: Side = Side {
    stamp: 0,
    floor: 0,
    kept: EMPTY,
    ends: EMPTY,
};

impl World {
    pub(crate) fn new() -> World {
        World {
            count: 0,
            sides: [NEW; 3],
        }
    }

    /// The next command is one of this table.
    pub(crate) fn take(&mut self, table: usize, step: Step) {
        let place = self.count;
        if let Some(side) = self.sides.get_mut(table) {
            side.take(place, step);
        }
        self.count = place.saturating_add(1);
    }
}
