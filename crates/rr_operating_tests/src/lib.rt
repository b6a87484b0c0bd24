//! Tests of the rules of operating rounds: dividends, purchases of trains and privates, and what follows on a round.
#![tactic(auto)]

#[cfg(test)]
mod best_runs;
#[cfg(test)]
mod depot;
#[cfg(test)]
mod dividends;
#[cfg(test)]
mod fixtures;
#[cfg(test)]
mod forced;
#[cfg(test)]
mod operate;
#[cfg(test)]
mod parts;
#[cfg(test)]
mod rules;
#[cfg(test)]
mod running;
#[cfg(test)]
mod sets;
