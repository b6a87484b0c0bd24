ghost use Rattle.std.specs.Prelude.{◌≡◌, ℕ, ◌+◌, ◌<◌, ◌≤◌, max, ℤ, pos, neg_ℤ, ◌≤ℤ◌, Bool, true, false, [], ◌∷◌, None, Some, OnOk, OnErr, MatchResult, ◌&&◌, is_some, nat_lt, nat_le, count_by, slice_index_or, if◌then◌else◌};
ghost use Rattle.rr_roster.specs.Terms.{count_of as roster_count_of};
ghost use Rattle.rr_books.specs.Same.{same_cert, same_train};
ghost use Rattle.rr_books.specs.Book.{Book, seats_up_to, balance, money, money_with, payments, players, balance_after, holder, train_holder};
ghost use Rattle.rr_books.specs.Opening.{opening_entries};
ghost use Rattle.rr_books.specs.Shares.{share, counted, president, is_at, share_numbers};
ghost use Rattle.rr_books.specs.State.{IsStateOf, Extends, cash_of, place_of, count_of, has_train, train_place_of, has_party, has_place, is_bank, Fits, party_index, payment_verdict, move_verdict, train_move_verdict, holder_in, MovesMoney};

use crate::certificates::{Cert, ShareNumber, Train};
use crate::entries::Entry;
use crate::parties::{Money, Party, Place, Seat};
use crate::refusal::Refusal;
use crate::start::starting_money;
use rr_roster::{Corp, Kind, Roster};
use std::marker::Model;

/// The running balances and places of a table, which stand for its book. It takes no memory, and `Copy` copies it.
#[derive(Clone, Copy, Debug)]
pub struct Books {
    pub(crate) cash: [i64; 15],
    pub(crate) payments: u32,
    pub(crate) players: u8,
    pub(crate) places: [Place; 78],
    pub(crate) trains: [Place; 120],
    pub(crate) counts: [u8; 6],
}

impl Model for Books {
    ghost use Rattle.rr_books.specs.State.{State, IsSound};

    ghost Value = { State };

    ghost view = { λ b. record { cash = b.cash; payments = b.payments; players = b.players; places = b.places; trains = b.trains; counts = b.counts } };

    ghost invariant = { λ b. IsSound (record { cash = b.cash; payments = b.payments; players = b.players; places = b.places; trains = b.trains; counts = b.counts }) };

    ghost inverse = { λ s. record { cash = s.cash; payments = s.payments; players = s.players; places = s.places; trains = s.trains; counts = s.counts } };
}

impl Books {
    /// The books of a table that opens: each player has been paid the money for the start, and every certificate and
    /// train is offered.
    pub fn open(players: u8, roster: &Roster) -> Books
        requires least { 2 ≤ players }
        requires greatest { players ≤ 6 }
        ensures book { IsStateOf (opening_entries players roster.now) result }
        ensures payments { result.payments ≡ players }
        ensures players { result.players ≡ players }
        ensures offered { (c : Cert) → place_of result c ≡ Place.Offer }
        ensures trains { (t : Train) → has_train result t ≡ true → train_place_of result t ≡ Some Place.Offer }
        ensures counts { (k : Kind) → count_of result k ≡ roster_count_of roster.now k }
    {
        // Each corporation has its place in the order, so that each certificate is offered.
        let _ = roster.corporations();
        let mut books = Books {
            cash: [0; 15],
            payments: 0,
            players,
            places: [Place::Offer; 78],
            trains: [Place::Offer; 120],
            counts: [
                roster.count(Kind::Two),
                roster.count(Kind::Three),
                roster.count(Kind::Four),
                roster.count(Kind::Five),
                roster.count(Kind::Six),
                roster.count(Kind::Diesel),
            ],
        };
        for seat in 0..players {
            books.transfer(
                Party::Bank,
                Party::Seat(Seat(seat)),
                starting_money(players).0,
            );
        }
        books
    }

    /// How many payments there were.
    pub fn payments(&self) -> u32
        ensures shown { result ≡ self.now.payments }
        ensures book { (book : Book) → IsStateOf book self.now → result ≡ payments book }
        ensures bound { result ≤ 400000000 }
    {
        self.payments
    }

    /// How many seats the table has.
    pub fn players(&self) -> u8
        ensures shown { result ≡ self.now.players }
        ensures book { (book : Book) → IsStateOf book self.now → result ≡ players book }
        ensures least { 2 ≤ result }
        ensures greatest { result ≤ 6 }
    {
        self.players
    }

    /// What was paid to the party less what it paid, in dollars. A seat that isn't at the table has 0.
    pub fn balance(&self, party: Party) -> Money
        ensures shown { result.0 ≡ cash_of self.now party }
        ensures book { (book : Book) → IsStateOf book self.now → result.0 ≡ balance book party }
        ensures least { neg_ℤ (pos 4000000000000000000) ≤ℤ result.0 }
        ensures greatest { result.0 ≤ℤ pos 4000000000000000000 }
    {
        match self.cash.get(party.index()) {
            Some(amount) => Money(*amount),
            None => Money(0),
        }
    }

    /// What the party has, in dollars: its balance, and for the bank what it began with more. It is below 0 where the
    /// bank owes.
    pub fn money(&self, party: Party, roster: &Roster) -> Money
        ensures shown { result.0 ≡ money_with roster.now (cash_of self.now) party }
        ensures book { (book : Book) → IsStateOf book self.now → result.0 ≡ money roster.now book party }
    {
        let balance = self.balance(party);
        match party {
            Party::Bank => Money(i64::from(roster.bank()) + balance.0),
            _ => balance,
        }
    }

    /// Whether the party is at the table.
    pub fn has_party(&self, party: Party) -> bool
        ensures shown { result ≡ has_party self.now.players party }
        ensures book { (book : Book) → IsStateOf book self.now → result ≡ has_party (players book) party }
    {
        match party {
            Party::Seat(seat) => seat.0 < self.players,
            _ => true,
        }
    }

    /// Whether the place is at the table.
    pub fn has_place(&self, place: Place) -> bool
        ensures shown { result ≡ has_place self.now.players place }
        ensures book { (book : Book) → IsStateOf book self.now → result ≡ has_place (players book) place }
    {
        match place {
            Place::Seat(seat) => seat.0 < self.players,
            _ => true,
        }
    }

    /// Where the certificate is.
    pub fn holder(&self, cert: Cert) -> Place
        ensures shown { result ≡ place_of self.now cert }
        ensures book { (book : Book) → IsStateOf book self.now → holder book cert ≡ Some result }
    {
        self.places[cert.index()]
    }

    /// How many trains of the kind there are, sold or not.
    pub fn train_count(&self, kind: Kind) -> u8
        ensures shown { result ≡ count_of self.now kind }
        ensures book { (book : Book) → IsStateOf book self.now → (number : ℕ) → is_some (train_holder book (record { kind = kind; number = number })) ≡ (nat_lt 0 number && nat_le number result) }
        ensures bound { result ≤ 20 }
    {
        self.counts[kind.index()]
    }

    /// Where the train is; none where there is no such train.
    pub fn train_holder(&self, train: Train) -> Option<Place>
        ensures shown { result ≡ train_place_of self.now train }
        ensures book { (book : Book) → IsStateOf book self.now → train_holder book train ≡ result }
    {
        if self.has_train(train) {
            Some(self.trains[train.index()])
        } else {
            None
        }
    }

    /// Whether there is such a train.
    pub fn has_train(&self, train: Train) -> bool
        ensures shown { result ≡ has_train self.now train }
        ensures book { (book : Book) → IsStateOf book self.now → result ≡ is_some (train_holder book train) }
    {
        0 < train.number && train.number <= self.train_count(train.kind)
    }

    /// How much of the corporation is at the place, in percent.
    pub fn share(&self, place: Place, corp: Corp) -> u8
        ensures shown { result ≡ share (holder_in self.now) place corp }
        ensures book { (book : Book) → IsStateOf book self.now → result ≡ share (holder book) place corp }
        ensures bound { result ≤ 100 }
    {
        let president = if self.is_at(Cert::President(corp), place) {
            20
        } else {
            0
        };
        president + 10 * self.shares_at(place, corp)
    }

    /// How many certificates of the corporation the seat holds; the president's counts as one.
    pub fn counted(&self, seat: Seat, corp: Corp) -> u8
        ensures shown { result ≡ counted (holder_in self.now) (Place.Seat seat) corp }
        ensures book { (book : Book) → IsStateOf book self.now → result ≡ counted (holder book) (Place.Seat seat) corp }
        ensures bound { result ≤ 9 }
    {
        let place = Place::Seat(seat);
        let president = if self.is_at(Cert::President(corp), place) {
            1
        } else {
            0
        };
        president + self.shares_at(place, corp)
    }

    /// The corporation's president: the seat that holds its 20% certificate, if a seat does.
    pub fn president(&self, corp: Corp) -> Option<Seat>
        ensures shown { result ≡ president (holder_in self.now) corp }
        ensures book { (book : Book) → IsStateOf book self.now → result ≡ president (holder book) corp }
    {
        match self.holder(Cert::President(corp)) {
            Place::Seat(seat) => Some(seat),
            _ => None,
        }
    }

    /// Pays the amount.
    ///
    /// # Errors
    ///
    /// `NoSuchName` where one of the two isn't at the table, `TooLittleCash` where the payer has less, unless it is
    /// the bank, which may owe. The books are as before then.
    pub fn pay(&mut self, from: Party, to: Party, amount: Money) -> Result<(), Refusal>
        requires not_negative { pos 0 ≤ℤ amount.0 }
        requires small { amount.0 ≤ℤ pos 10000000000 }
        requires room { self.old.payments < 400000000 }
        ensures verdict { MatchResult result
            (λ _. payment_verdict self.old.players (cash_of self.old) from to amount.0 ≡ None)
            (λ fault. payment_verdict self.old.players (cash_of self.old) from to amount.0 ≡ Some fault) }
        ensures book_verdict { (book : Book) → IsStateOf book self.old → MatchResult result
            (λ _. payment_verdict (players book) (balance book) from to amount.0 ≡ None)
            (λ fault. payment_verdict (players book) (balance book) from to amount.0 ≡ Some fault) }
        ensures book { OnOk result (Extends self.old self.new (Entry.Pay from to amount ∷ [])) }
        ensures cash { OnOk result ((p : Party) → cash_of self.new p ≡ balance_after p (cash_of self.old p) (Entry.Pay from to amount)) }
        ensures payments { OnOk result (self.new.payments ≡ self.old.payments + 1) }
        ensures players { self.new.players ≡ self.old.players }
        ensures places { self.new.places ≡ self.old.places }
        ensures trains { self.new.trains ≡ self.old.trains }
        ensures counts { self.new.counts ≡ self.old.counts }
        ensures err { OnErr result (self.new ≡ self.old) }
    {
        if !self.has_party(from) {
            return Err(Refusal::NoSuchName);
        }
        if !self.has_party(to) {
            return Err(Refusal::NoSuchName);
        }
        if !from.is_bank() && self.balance(from).0 < amount.0 {
            return Err(Refusal::TooLittleCash);
        }
        // A table has at most six players, so that both have their place in the row of balances.
        let _players = self.players();
        self.transfer(from, to, amount.0);
        Ok(())
    }

    /// Moves the certificate to the place.
    ///
    /// # Errors
    ///
    /// `NoSuchName` where the place is a seat that isn't at the table. The books are as before then.
    pub fn give(&mut self, cert: Cert, to: Place) -> Result<(), Refusal>
        ensures verdict { MatchResult result
            (λ _. move_verdict self.old.players to ≡ None)
            (λ fault. move_verdict self.old.players to ≡ Some fault) }
        ensures book_verdict { (book : Book) → IsStateOf book self.old → MatchResult result
            (λ _. move_verdict (players book) to ≡ None)
            (λ fault. move_verdict (players book) to ≡ Some fault) }
        ensures book { OnOk result (Extends self.old self.new (Entry.Move cert to ∷ [])) }
        ensures place { OnOk result ((c : Cert) → place_of self.new c ≡ (if same_cert c cert then to else place_of self.old c)) }
        ensures cash { self.new.cash ≡ self.old.cash }
        ensures payments { self.new.payments ≡ self.old.payments }
        ensures players { self.new.players ≡ self.old.players }
        ensures trains { self.new.trains ≡ self.old.trains }
        ensures counts { self.new.counts ≡ self.old.counts }
        ensures err { OnErr result (self.new ≡ self.old) }
    {
        if !self.has_place(to) {
            return Err(Refusal::NoSuchName);
        }
        self.move_certificate(cert, to);
        Ok(())
    }

    /// Moves the train to the place.
    ///
    /// # Errors
    ///
    /// `NoSuchName` where there is no such train, or the place is a seat that isn't at the table. The books are as
    /// before then.
    pub fn give_train(&mut self, train: Train, to: Place) -> Result<(), Refusal>
        ensures verdict { MatchResult result
            (λ _. train_move_verdict self.old.players (train_place_of self.old) train to ≡ None)
            (λ fault. train_move_verdict self.old.players (train_place_of self.old) train to ≡ Some fault) }
        ensures book_verdict { (book : Book) → IsStateOf book self.old → MatchResult result
            (λ _. train_move_verdict (players book) (train_holder book) train to ≡ None)
            (λ fault. train_move_verdict (players book) (train_holder book) train to ≡ Some fault) }
        ensures book { OnOk result (Extends self.old self.new (Entry.Train train to ∷ [])) }
        ensures place { OnOk result ((t : Train) → train_place_of self.new t ≡ (if same_train t train then Some to else train_place_of self.old t)) }
        ensures cash { self.new.cash ≡ self.old.cash }
        ensures payments { self.new.payments ≡ self.old.payments }
        ensures players { self.new.players ≡ self.old.players }
        ensures places { self.new.places ≡ self.old.places }
        ensures counts { self.new.counts ≡ self.old.counts }
        ensures err { OnErr result (self.new ≡ self.old) }
    {
        if !self.has_train(train) {
            return Err(Refusal::NoSuchName);
        }
        if !self.has_place(to) {
            return Err(Refusal::NoSuchName);
        }
        self.move_train(train, to);
        Ok(())
    }

    /// Follows the next entry of the book, whatever it says: who pays may have less than the amount, and a seat that is
    /// paid is at the table from then on.
    pub fn follow(&mut self, entry: &Entry)
        requires fits { Fits self.old entry.now }
        requires room { self.old.payments < 400000000 }
        ensures book { Extends self.old self.new (entry.now ∷ []) }
        ensures payments { self.new.payments ≤ self.old.payments + 1 }
    {
        match entry {
            Entry::Pay { from, to, amount } => self.transfer(*from, *to, amount.0),
            Entry::Move { cert, to } => self.move_certificate(*cert, *to),
            Entry::Train { train, to } => self.move_train(*train, *to),
            Entry::Mark { .. } => (),
            Entry::Lay { .. } => (),
            Entry::Station { .. } => (),
            Entry::Best { .. } => (),
            Entry::Step(_) => (),
        }
    }

    // Pays the amount, whatever the payer has.
    fn transfer(&mut self, from: Party, to: Party, amount: i64)
        requires payer { party_index from < 15 }
        requires payee { party_index to < 15 }
        requires not_negative { pos 0 ≤ℤ amount }
        requires small { amount ≤ℤ pos 10000000000 }
        requires room { self.old.payments < 400000000 }
        ensures book { Extends self.old self.new (Entry.Pay from to (record { 0 = amount }) ∷ []) }
        ensures cash { (p : Party) → cash_of self.new p ≡ balance_after p (cash_of self.old p) (Entry.Pay from to (record { 0 = amount })) }
        ensures payments { self.new.payments ≡ self.old.payments + 1 }
        ensures players { self.new.players ≡ max self.old.players (seats_up_to to) }
        ensures places { self.new.places ≡ self.old.places }
        ensures trains { self.new.trains ≡ self.old.trains }
        ensures counts { self.new.counts ≡ self.old.counts }
    {
        let payer = from.index();
        let payee = to.index();
        let seats = seats_up_to(to);
        self.players = self.players.max(seats);
        move_money(&mut self.cash, payer, payee, amount);
        self.payments += 1;
    }

    fn move_certificate(&mut self, cert: Cert, to: Place)
        ensures book { Extends self.old self.new (Entry.Move cert to ∷ []) }
        ensures place { (c : Cert) → place_of self.new c ≡ (if same_cert c cert then to else place_of self.old c) }
        ensures cash { self.new.cash ≡ self.old.cash }
        ensures payments { self.new.payments ≡ self.old.payments }
        ensures players { self.new.players ≡ self.old.players }
        ensures trains { self.new.trains ≡ self.old.trains }
        ensures counts { self.new.counts ≡ self.old.counts }
    {
        self.places[cert.index()] = to;
    }

    // Moves a train that there is.
    fn move_train(&mut self, train: Train, to: Place)
        requires { has_train self.old train ≡ true }
        ensures book { Extends self.old self.new (Entry.Train train to ∷ []) }
        ensures place { (t : Train) → train_place_of self.new t ≡ (if same_train t train then Some to else train_place_of self.old t) }
        ensures cash { self.new.cash ≡ self.old.cash }
        ensures payments { self.new.payments ≡ self.old.payments }
        ensures players { self.new.players ≡ self.old.players }
        ensures places { self.new.places ≡ self.old.places }
        ensures counts { self.new.counts ≡ self.old.counts }
    {
        // No kind has more than twenty trains, so that this one has its place in the row.
        let _count = self.train_count(train.kind);
        self.trains[train.index()] = to;
    }

    // How many 10% certificates of the corporation are at the place.
    fn shares_at(&self, place: Place, corp: Corp) -> u8
        ensures value { result ≡ count_by (λ n. is_at (holder_in self.now (Cert.Share corp n)) place) share_numbers }
        ensures bound { result ≤ 8 }
    {
        ShareNumber::ALL
            .iter()
            .filter(|number| self.is_at(Cert::Share(corp, **number), place))
            .count() as u8
    }

    // Whether the certificate is at the place.
    fn is_at(&self, cert: Cert, place: Place) -> bool
        ensures { result ≡ is_at (holder_in self.now cert) place }
    {
        self.holder(cert) == place
    }
}

// How many seats a table has at least, if it has the party.
fn seats_up_to(party: Party) -> u8
    requires { party_index party < 15 }
    ensures value { result ≡ seats_up_to party }
    ensures bound { result ≤ 6 }
{
    match party {
        Party::Seat(seat) => seat.0 + 1,
        _ => 0,
    }
}

// Takes the amount from one place of the row and adds it to another.
fn move_money(cash: &mut [i64; 15], payer: usize, payee: usize, amount: i64)
    requires payer_in { payer < 15 }
    requires payee_in { payee < 15 }
    requires not_negative { pos 0 ≤ℤ amount }
    requires small { amount ≤ℤ pos 10000000000 }
    requires least { (k : ℕ) → neg_ℤ (pos 4000000000000000000) ≤ℤ slice_index_or cash.old k (pos 0) }
    requires greatest { (k : ℕ) → slice_index_or cash.old k (pos 0) ≤ℤ pos 4000000000000000000 }
    ensures { MovesMoney cash.old cash.new payer payee amount }
{
    cash[payer] -= amount;
    cash[payee] += amount;
}
