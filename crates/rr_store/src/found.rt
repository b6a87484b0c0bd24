use crate::recovery::Recovered;
use rr_log::opening::Opened;
use rr_reading::worlds::Worlds;
use rr_tables::records::TableRules;

/// What was found in a file: what its bytes hold, the tables that are recovered of that, and room for a record.
#[derive(Drop)]
pub(crate) struct Found {
    pub(crate) opened: Opened<Worlds<TableRules>>,
    pub(crate) recovered: Recovered,
    pub(crate) buffer: Vec<u8>,
}
