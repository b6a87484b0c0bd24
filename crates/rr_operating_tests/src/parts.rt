//! How a table stands as plain values and as bytes, there and back.
use crate::fixtures::{ROSTER, roster};
use rr_books::Money;
use rr_rules::{Standing, StandingParts};
use rr_words::spelling::{Cursor, Spell};
use std::alloc::Global;
use std::process::Abort;

// The calls below have no contracts, so that what a test does costs its proof little.

fn opened(rt: &impl Abort, alloc: Global) -> StandingParts {
    Standing::open(alloc, 2, &roster(rt, alloc, ROSTER))
        .expect(rt, "memory")
        .parts()
}

// Whether a game may stand so: the values tell it as what is made of them does.
fn is_standing(rt: &impl Abort, alloc: Global, parts: StandingParts) -> bool {
    let made = Standing::from_parts(alloc, &parts)
        .expect(rt, "memory")
        .is_some();
    assert!(rt; parts.are_sound() == made);
    made
}

// The value of which these are all the bytes.
fn read<T: Spell + Copy>(bytes: &[u8]) -> Option<T> {
    let mut cursor = Cursor::of(bytes);
    let value = T::read(&mut cursor)?;
    if cursor.is_empty() { Some(value) } else { None }
}

fn spelled<T: Spell>(rt: &impl Abort, alloc: Global, value: &T) -> Vec<u8> {
    let mut bytes = Vec::new(alloc);
    value.write(&mut bytes).expect(rt, "memory");
    bytes
}

// Whether the values are read from their bytes again.
fn is_read_again(rt: &impl Abort, alloc: Global, parts: &StandingParts) -> bool {
    let bytes = spelled(rt, alloc, parts);
    match read::<StandingParts>(&bytes) {
        Some(again) => spelled(rt, alloc, &again).as_slice() == bytes.as_slice(),
        None => false,
    }
}

fn with_revenue(parts: &StandingParts, dollars: i64) -> StandingParts {
    StandingParts {
        position: parts.position,
        revenue: Money(dollars),
    }
}

#[test]
fn a_standing_is_made_of_its_values(rt: HostRuntime) {
    let alloc = rt.alloc();
    let parts = opened(&rt, alloc);
    assert!(rt; parts.revenue == Money(0));
    assert!(rt; is_standing(&rt, alloc, parts));
    assert!(rt; is_standing(&rt, alloc, with_revenue(&parts, 10_000_000_000)));
    assert!(rt; !is_standing(&rt, alloc, with_revenue(&parts, 10_000_000_001)));
    assert!(rt; !is_standing(&rt, alloc, with_revenue(&parts, -1)));
    let mut many = parts;
    many.position.entries = 400_000_001;
    assert!(rt; !is_standing(&rt, alloc, many));
}

#[test]
fn a_standing_is_spelled(rt: HostRuntime) {
    let alloc = rt.alloc();
    let parts = with_revenue(&opened(&rt, alloc), 258);
    let bytes = spelled(&rt, alloc, &parts);
    // 883 of the position, 8 of the revenue
    assert!(rt; bytes.len() == 891);
    assert!(rt; bytes.get(883..) == Some(b"\x00\x00\x00\x00\x00\x00\x01\x02".as_slice()));
    assert!(rt; is_read_again(&rt, alloc, &parts));
    assert!(rt; read::<StandingParts>(&bytes[..bytes.len() - 1]).is_none());
}
