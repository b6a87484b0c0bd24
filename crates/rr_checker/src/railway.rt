//! The net of links over which one corporation runs its trains.
ghost use Rattle.std.specs.Prelude.{◌≡◌};

use rr_routes::{CentreLimit, Link};
use std::marker::Model;

/// The links, tokens, centres and trains of one corporation.
///
/// Links, centres and trains are named by their places, from 0. A centre beyond the given values is worth nothing.
#[derive(Debug, Drop)]
pub struct Net {
    links: Vec<Link>,
    tokens: Vec<usize>,
    terminals: Vec<usize>,
    values: Vec<u32>,
    trains: Vec<CentreLimit>,
}

impl Model for Net {
    ghost use Rattle.rr_routes.specs.Net.{Net as Railway};

    ghost Value = { Railway };

    ghost view = { λ net. record { links = net.links.items; tokens = net.tokens.items; terminals = net.terminals.items; values = net.values.items; trains = net.trains.items } };
}

impl Net {
    /// The net of these links, of the centres that have a token of the corporation, of those that none of its routes
    /// passes, of what each centre is worth, and of how many centres each of its trains counts.
    pub fn new(
        links: Vec<Link>,
        tokens: Vec<usize>,
        terminals: Vec<usize>,
        values: Vec<u32>,
        trains: Vec<CentreLimit>,
    ) -> Net
        ensures { result ≡ record { links = links.items; tokens = tokens.items; terminals = terminals.items; values = values.items; trains = trains.items } }
    {
        Net {
            links,
            tokens,
            terminals,
            values,
            trains,
        }
    }

    /// The links, in order.
    pub fn links(&self) -> &[Link]
        ensures { result.now ≡ self.now.links }
    {
        &self.links
    }

    /// The centres that have a token of the corporation.
    pub fn tokens(&self) -> &[usize]
        ensures { result.now ≡ self.now.tokens }
    {
        &self.tokens
    }

    /// The centres that none of its routes passes: off-board areas, and cities filled by others.
    pub fn terminals(&self) -> &[usize]
        ensures { result.now ≡ self.now.terminals }
    {
        &self.terminals
    }

    /// What each centre is worth.
    pub fn values(&self) -> &[u32]
        ensures { result.now ≡ self.now.values }
    {
        &self.values
    }

    /// How many centres each of its trains counts.
    pub fn trains(&self) -> &[CentreLimit]
        ensures { result.now ≡ self.now.trains }
    {
        &self.trains
    }
}
