//! Judges certificates: whether a tree of cases shows that no run of a net earns more than is claimed. The judge of
//! sheets uses its parts too.
//!
//! Stands on `rr_routes`. Its promise: `check` is true exactly if the certificate is accepted for the claim.
#![tactic(auto)]

mod centres;
mod full;
mod index;
mod journeys;
mod judge;
mod own;
mod railway;
mod reach;
mod step;
mod tracks;
mod trips;

pub use centres::value;
pub use journeys::{centre_at, journey_over};
pub use judge::check;
pub use own::{is_shared, others_links, own_links};
pub use railway::Net;
pub use rr_routes::{CentreLimit, CertTree, Fate, Link, Node};
pub use trips::{
    Journey, centres_of, counts_over, ends_at_centres, far_end, has_node, has_token_on, is_clear,
    is_simple, is_walk,
};
