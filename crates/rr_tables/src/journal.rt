//! What keeps the records of requests.
ghost use Rattle.std.specs.Prelude.{◌≡◌, Ok};
ghost use Rattle.rr_code.specs.Request.{IsRequest, record_text};
ghost use Rattle.rr_tables.specs.Tables.{lent_by};

use crate::Tables;
use rr_code::Command;
use rr_game::history::Request;
use rr_log::Fault;
use rr_words::Name;

/// What keeps the record of a request before the request counts.
pub trait Journal {
    ghost use Rattle.std.specs.Prelude.{ℕ, List, Result};
    ghost use Rattle.rr_log.specs.declared.fault.Fault as file;
    ghost use Rattle.rr_log.specs.Lent.{Lent};

    // What keeping a record does: the journal from before, the tables from before the request, the record's bytes, how
    // it ended, and the journal behind it.
    ghost Keeps: { Self → Lent → List ℕ → Result (Unit {0}) file.Fault → Self → Type 0 };

    /// Keeps the record of what is asked of a table. The tables are those from before the request. After `Ok` the
    /// record is safe.
    fn keep(
        &mut self,
        tables: &Tables,
        name: &Name,
        request: &Request<Command>,
    ) -> Result<(), Fault>
        requires { IsRequest request.now }
        ensures { Keeps self.old (lent_by tables.now) (record_text name.now request.now) result self.new };
}

/// Keeps nothing, and refuses nothing: for records that stand in the file already.
#[derive(Clone, Copy, Debug)]
pub struct Standing;

impl Journal for Standing {
    ghost Keeps = { λ old _ _ result new. (result ≡ Ok tt) × (new ≡ old) };

    fn keep(
        &mut self,
        _tables: &Tables,
        _name: &Name,
        _request: &Request<Command>,
    ) -> Result<(), Fault> {
        Ok(())
    }
}
