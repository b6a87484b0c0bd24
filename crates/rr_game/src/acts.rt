//! Commands with seats in the place of names.
ghost use Rattle.std.specs.Prelude.{◌≡◌, ◌≤◌, None, Some, MatchResult};
ghost use Rattle.rr_auction.specs.Small as auction;
ghost use Rattle.rr_stock.specs.Small.{HasSeat};
ghost use Rattle.rr_trains.specs.Depot.Small as depot;
ghost use Rattle.rr_rules.specs.Runs.{run_verdict};
ghost use Rattle.rr_rules.specs.State.{GameState, IsStandingOf};
ghost use Rattle.rr_turns.specs.Judgement.{MayFind};
ghost use Rattle.rr_game.specs.Names.{act_of, act_of_order, amount_in, price_in};
ghost use Rattle.rr_game.specs.Verdict.{act_judgement, command_judgement_in_play};

use crate::game::Game;
use rr_books::{Act, Corp, Refusal, Words};
use rr_code::{Command, Order};
use rr_kit::Kit;
use rr_orders::{CertificateWords, SheetWords};
use std::alloc::Global;

impl Game {
    /// The command with seats in place of names. The words of a run take memory: they are copied only where the run
    /// comes in its order.
    ///
    /// # Errors
    ///
    /// `WrongStep` for an opening; `NoSuchName` for a player who isn't at the table; what refuses a run before its
    /// words are looked at; or `OutOfMemory`.
    pub(crate) fn act(&self, alloc: Global, kit: &Kit, command: &Command) -> Result<Act, Refusal>
        requires { amount_in command.now ≤ 10000000000 }
        ensures { MatchResult result
            (λ act. (act_of self.now.players command.now ≡ Some act) × HasSeat act × auction.IsSmall act × depot.IsSmall act)
            (λ fault. (state : GameState) → IsStandingOf state self.now.standing →
            MayFind (command_judgement_in_play kit.now self.now.players state command.now) Refusal.OutOfMemory fault) }
    {
        match command {
            Command::Open { .. } => Err(Refusal::WrongStep),
            Command::BuyPrivate { player } => Ok(Act::BuyPrivate {
                seat: self.seat(player)?,
            }),
            Command::Bid {
                player,
                private,
                amount,
            } => Ok(Act::Bid {
                seat: self.seat(player)?,
                private: *private,
                amount: *amount,
            }),
            Command::Pass { player } => Ok(Act::Pass {
                seat: self.seat(player)?,
            }),
            Command::Par {
                player,
                corp,
                price,
            } => Ok(Act::Par {
                seat: self.seat(player)?,
                corp: *corp,
                price: *price,
            }),
            Command::BuyShare {
                player,
                corp,
                source,
            } => Ok(Act::BuyShare {
                seat: self.seat(player)?,
                corp: *corp,
                source: *source,
            }),
            Command::Sell {
                player,
                corp,
                count,
            } => Ok(Act::Sell {
                seat: self.seat(player)?,
                corp: *corp,
                count: *count,
            }),
            Command::Swap { player, source } => Ok(Act::Swap {
                seat: self.seat(player)?,
                source: *source,
            }),
            Command::Done { player } => Ok(Act::Done {
                seat: self.seat(player)?,
            }),
            Command::Order(order) => self.act_of_order(alloc, kit, order),
        }
    }

    // An order with seats in place of names.
    fn act_of_order(&self, alloc: Global, kit: &Kit, order: &Order) -> Result<Act, Refusal>
        requires { price_in order.now ≤ 10000000000 }
        ensures { MatchResult result
            (λ act. (act_of_order self.now.players order.now ≡ Some act) × HasSeat act × auction.IsSmall act × depot.IsSmall act)
            (λ fault. (state : GameState) → IsStandingOf state self.now.standing →
            MayFind (act_judgement kit.now state (act_of_order self.now.players order.now)) Refusal.OutOfMemory fault) }
    {
        match order {
            Order::Lay {
                corp,
                hex,
                tile,
                turn,
            } => Ok(Act::Lay {
                corp: *corp,
                hex: *hex,
                tile: *tile,
                turn: *turn,
            }),
            Order::Station { corp, hex, centre } => Ok(Act::Station {
                corp: *corp,
                hex: *hex,
                centre: *centre,
            }),
            Order::Run { corp, sheet } => self.act_of_run(alloc, kit, *corp, sheet),
            Order::RunBest {
                corp,
                sheet,
                certificate,
            } => self.act_of_best_run(alloc, kit, *corp, sheet, certificate),
            Order::PayOut { corp } => Ok(Act::PayOut { corp: *corp }),
            Order::Hold { corp } => Ok(Act::Hold { corp: *corp }),
            Order::BuyTrain { corp, kind, source } => Ok(Act::BuyTrain {
                corp: *corp,
                kind: *kind,
                source: *source,
            }),
            Order::BuyTrainFrom {
                corp,
                kind,
                seller,
                price,
                buyer_president,
                seller_president,
            } => Ok(Act::BuyTrainFrom {
                corp: *corp,
                kind: *kind,
                seller: *seller,
                price: *price,
                president: self.seat(buyer_president)?,
                seller_president: self.seat(seller_president)?,
            }),
            Order::Trade { corp, kind } => Ok(Act::Trade {
                corp: *corp,
                kind: *kind,
            }),
            Order::Discard { corp, kind } => Ok(Act::Discard {
                corp: *corp,
                kind: *kind,
            }),
            Order::TakePrivate {
                corp,
                private,
                price,
            } => Ok(Act::TakePrivate {
                corp: *corp,
                private: *private,
                price: *price,
            }),
            Order::End { corp } => Ok(Act::End { corp: *corp }),
            Order::Force { corp } => Ok(Act::Force { corp: *corp }),
            Order::Raise {
                player,
                corp,
                count,
            } => Ok(Act::Raise {
                seat: self.seat(player)?,
                corp: *corp,
                count: *count,
            }),
            Order::Bankrupt { player } => Ok(Act::Bankrupt {
                seat: self.seat(player)?,
            }),
        }
    }

    // A run with a copy of its sheet, where it comes in its order.
    fn act_of_run(
        &self,
        alloc: Global,
        kit: &Kit,
        corp: Corp,
        sheet: &SheetWords,
    ) -> Result<Act, Refusal>
        ensures { MatchResult result
            (λ act. act ≡ Act.Run corp sheet.now)
            (λ fault. (state : GameState) → IsStandingOf state self.now.standing →
            MayFind (act_judgement kit.now state (Some (Act.Run corp sheet.now))) Refusal.OutOfMemory fault) }
    {
        self.standing.judge_run(alloc, kit, corp)?;
        let sheet = Words::of(alloc, sheet.as_bytes())?;
        Ok(Act::Run { corp, sheet })
    }

    // The same with a certificate.
    fn act_of_best_run(
        &self,
        alloc: Global,
        kit: &Kit,
        corp: Corp,
        sheet: &SheetWords,
        certificate: &CertificateWords,
    ) -> Result<Act, Refusal>
        ensures { MatchResult result
            (λ act. act ≡ Act.RunBest corp sheet.now certificate.now)
            (λ fault. (state : GameState) → IsStandingOf state self.now.standing →
            MayFind (act_judgement kit.now state (Some (Act.RunBest corp sheet.now certificate.now))) Refusal.OutOfMemory fault) }
    {
        self.standing.judge_run(alloc, kit, corp)?;
        let sheet = Words::of(alloc, sheet.as_bytes())?;
        let certificate = Words::of(alloc, certificate.as_bytes())?;
        Ok(Act::RunBest {
            corp,
            sheet,
            certificate,
        })
    }
}
