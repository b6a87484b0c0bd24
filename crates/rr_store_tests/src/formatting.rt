//! New files of either version, with rosters that name a bank and that don't.
use crate::files::{ROSTER, content, empty_disk, new_file, refused_as};
use rr_store::Fault;
use std::process::Abort;

const NO_ROSTER: Option<Fault> = Some(Fault::Kit(rr_kit::Fault::BadRoster));

const NO_RULE_7: Option<Fault> = Some(Fault::Kit(rr_kit::Fault::RosterRule(7)));

// What stands before a roster, a version, why it is refused, and the last byte of the version that its root has.
static FORMATS: [(&[u8], u16, Option<Fault>, Option<u8>); 8] = [
    (b"", 1, None, Some(1)),
    (b"", 2, None, Some(2)),
    (b"bank = 2400\n", 2, None, Some(2)),
    (b"bank = 2399\n", 2, NO_RULE_7, None),
    (b"bank = 2400\n", 1, NO_ROSTER, None),
    (b"bank = 2399\n", 1, NO_ROSTER, None),
    (b"", 0, Some(Fault::NotAStore), None),
    (b"", 3, Some(Fault::NotAStore), None),
];

fn told(
    rt: &(impl Abort + AllocGlobal),
    front: &[u8],
    version: u16,
) -> (Option<Fault>, Option<u8>) {
    let mut roster = front.to_vec(rt.alloc()).expect(rt, "memory");
    roster.extend_from_slice(ROSTER).expect(rt, "memory");
    let mut disk = empty_disk(rt);
    let fault = refused_as(rt.alloc(), &mut disk, &roster, version);
    (fault, content(&disk).get(35).copied())
}

#[test]
fn files_are_made_of_either_version(rt: HostRuntime) {
    for (front, version, fault, byte) in &FORMATS {
        assert!(&rt; told(&rt, *front, *version) == (*fault, *byte));
    }
}

fn refused_again(rt: &(impl Abort + AllocGlobal), version: u16) -> Option<Fault> {
    let mut disk = new_file(rt);
    refused_as(rt.alloc(), &mut disk, ROSTER, version)
}

// Of a number that is no version the file isn't looked at.
#[test]
fn a_number_that_is_no_version_is_told_first(rt: HostRuntime) {
    let faults = [refused_again(&rt, 1), refused_again(&rt, 3)];
    assert!(rt; faults == [Some(Fault::NotEmpty), Some(Fault::NotAStore)]);
}
