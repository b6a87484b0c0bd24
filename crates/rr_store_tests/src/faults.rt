//! The texts of faults, and the numbers of the clauses of damage.
use rr_pages::Damage;
use rr_store::Fault;

static TEXTS: [(Fault, &str); 14] = [
    (Fault::Kit(rr_kit::Fault::BadRoster), "bad roster"),
    (Fault::Game(rr_books::Refusal::GameOver), "game is over"),
    (Fault::StaleStamp(7), "stale stamp 7"),
    (Fault::TurnNotKept, "turn not kept"),
    (Fault::TooManyCommands, "too many commands"),
    (Fault::DeviceFailed, "device failed"),
    (Fault::FileFull, "file full"),
    (Fault::Damaged(Damage::UsedBytes), "damaged 4"),
    (Fault::NotAStore, "not a store"),
    (Fault::NotEmpty, "not empty"),
    (Fault::OpenAgain, "open again"),
    (Fault::TooManyTables, "too many tables"),
    (Fault::NoSuchTable, "no such table"),
    (Fault::OutOfMemory, "out of memory"),
];

// The numbers of the clauses that only what stands above the file finds broken, behind that of its form.
fn clauses() -> [u8; 4] {
    [
        Damage::Form.clause(),
        Damage::Kit.clause(),
        Damage::Kept.clause(),
        Damage::Records.clause(),
    ]
}

#[test]
fn faults_have_texts(rt: HostRuntime) {
    let rt = &rt;
    for (fault, text) in TEXTS.iter() {
        assert!(rt; fault.to_string(rt.alloc()).expect(rt, "memory").as_str() == *text);
    }
    assert!(rt; clauses() == [5, 6, 7, 8]);
}
