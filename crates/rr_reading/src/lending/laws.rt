//! What always holds of chains and of the commands in them. The functions do nothing: a caller's proof cites what they
//! ensure.
ghost use Rattle.rr_reading.specs.Lending.Laws as laws;

/// A chain is whole in one way: what is left of one that was followed are the pages and the bytes that reading it gives.
/// No page comes twice in it, and none that was reached before.
pub fn chains_are_read_once()
    ensures once { laws.ChainsAreReadOnce }
    ensures apart { laws.PagesComeOnce }
{}

/// The commands that are lent one after another, up to the end, are those that a chain's bytes spell; where the chain
/// ends within a command, its bytes spell none.
pub fn commands_are_the_kept_ones()
    ensures { laws.CommandsAreKept }
{}
