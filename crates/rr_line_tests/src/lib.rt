//! Tests of the lines that the moderator reads, and of how they are served.
#![tactic(auto)]

#[cfg(test)]
mod calls;
#[cfg(test)]
mod code;
#[cfg(test)]
mod ends;
#[cfg(test)]
mod kept_words;
#[cfg(test)]
mod orders;
#[cfg(test)]
mod players;
#[cfg(test)]
mod scan;
#[cfg(test)]
mod serving;
