use rr_images::schedules::laws as schedules;
use rr_tables::records::laws::{
    lawful_requests_are_taken, played_tables_are_lent, played_worlds_have_played_bases,
    played_worlds_stay_played, prefix, records_are_of_requests, records_lead_to_one_world,
    records_move_on, spelled_worlds_are_one, tables_are_worlds, tables_lend_their_snapshots,
};
use rr_tables::records::{Fault, TableRules};
use std::alloc::Global;
use std::test::Fail;

// The laws do nothing.
fn cite_laws() {
    spelled_worlds_are_one();
    records_lead_to_one_world();
    records_move_on();
    lawful_requests_are_taken();
    records_are_of_requests();
    played_worlds_stay_played();
    played_worlds_have_played_bases();
    tables_are_worlds();
    played_tables_are_lent();
    tables_lend_their_snapshots();
    prefix();
    schedules::prefix::<TableRules>();
    schedules::calls_are_events::<TableRules>();
    schedules::example();
}

// The text of the first fault that has another one than it is to have.
fn unlike(alloc: Global) -> Result<Option<&'static str>, Fail> {
    let rows = [
        (Fault::Game(rr_books::Refusal::GameOver), "game is over"),
        (
            Fault::from(rr_game::history::Fault::StaleStamp(7)),
            "stale stamp 7",
        ),
        (Fault::TurnNotKept, "turn not kept"),
        (Fault::TooManyCommands, "too many commands"),
        (Fault::TooManyTables, "too many tables"),
        (Fault::NoSuchTable, "no such table"),
        (Fault::OutOfMemory, "out of memory"),
    ];
    for (fault, text) in rows {
        if fault.to_string(alloc)?.as_str() != text {
            return Ok(Some(text));
        }
    }
    Ok(None)
}

#[test]
fn faults_have_texts(rt: HostRuntime) -> Result<(), Fail> {
    cite_laws();
    let row = unlike(rt.alloc())?;
    assert_eq!(rt; row, None);
    Ok(())
}
