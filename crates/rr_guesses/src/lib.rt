//! Guesses at the run that earns most, with a certificate that none earns more. A guess is returned only if the judges
//! of both accept it.
//!
//! Stands on `rr_referee`. Its promise: what `guess` returns is a legal sheet with an accepted certificate
//! (`IsCertified`). That it finds one isn't proved.
#![tactic(auto)]

mod candidate;
mod certificate;
mod choice;
mod graph;
mod growth;
mod lost;
mod plan;
mod routes;
mod runs;
mod settling;
mod sights;

pub use candidate::guess;
