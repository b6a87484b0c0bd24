//! Values and their bytes, each worked by hand.
use rr_roster::Corp;
use rr_words::HexName;
use rr_words::spelling::{Cursor, Spell, read_counted, write_counted};
use std::alloc::{AllocError, Global};

// The calls below have no contracts and assert nothing, so that what a test does costs its proof little.

fn written<T: Spell>(alloc: Global, value: &T) -> Result<Vec<u8>, AllocError> {
    let mut out = Vec::new(alloc);
    value.write(&mut out)?;
    Ok(out)
}

/// Whether the value is read from the bytes, and nothing else.
fn is_read<T: Spell + PartialEq + Drop>(value: &T, bytes: &[u8]) -> bool {
    let mut cursor = Cursor::of(bytes);
    match T::read(&mut cursor) {
        Some(read) => read == *value && cursor.is_empty(),
        None => false,
    }
}

/// Whether these are the bytes of the value, and nothing else is read from them.
fn is_spelled<T: Spell + PartialEq + Drop>(alloc: Global, value: &T, bytes: &[u8]) -> bool {
    match written(alloc, value) {
        Ok(out) => out.as_slice() == bytes && is_read(value, bytes),
        Err(_) => false,
    }
}

/// Whether the bytes begin with no value of the type.
fn is_none<T: Spell + Drop>(bytes: &[u8]) -> bool {
    T::read(&mut Cursor::of(bytes)).is_none()
}

fn are_numbers_spelled(alloc: Global) -> [bool; 6] {
    [
        is_spelled(alloc, &7u8, &[7]),
        is_spelled(alloc, &258u16, &[1, 2]),
        is_spelled(alloc, &16_909_060u32, &[1, 2, 3, 4]),
        is_spelled(alloc, &4_328_719_365u64, &[0, 0, 0, 1, 2, 3, 4, 5]),
        is_spelled(alloc, &-2i64, &[255, 255, 255, 255, 255, 255, 255, 254]),
        is_spelled(alloc, &true, &[1]),
    ]
}

fn are_no_numbers() -> [bool; 3] {
    [
        is_none::<u16>(&[1]),
        is_none::<i64>(&[0; 7]),
        is_none::<bool>(&[2]),
    ]
}

#[test]
fn numbers_have_their_high_bytes_first(rt: HostRuntime) {
    assert!(rt; are_numbers_spelled(rt.alloc()) == [true; 6]);
    assert!(rt; are_no_numbers() == [true; 3]);
}

fn are_values_spelled(alloc: Global) -> [bool; 6] {
    [
        is_spelled(alloc, &Some(5u8), &[1, 5]),
        is_spelled(alloc, &None::<u8>, &[0]),
        is_spelled(alloc, &(1u8, 2u16), &[1, 0, 2]),
        is_spelled(alloc, &[1u16, 256], &[0, 1, 1, 0]),
        is_none::<Option<u8>>(&[2, 5]),
        is_none::<[u16; 2]>(&[0, 1, 1]),
    ]
}

#[test]
fn values_stand_behind_one_another(rt: HostRuntime) {
    assert!(rt; are_values_spelled(rt.alloc()) == [true; 6]);
}

fn counted(alloc: Global) -> Result<Vec<u8>, AllocError> {
    let mut bytes = Vec::new(alloc);
    write_counted(&[3u8, 4], &mut bytes)?;
    Ok(bytes)
}

/// Whether the bytes fill the first two of three slots.
fn fill_two_slots(bytes: &[u8]) -> bool {
    let mut slots = [9u8; 3];
    let count = read_counted(&mut slots, &mut Cursor::of(bytes));
    count == Some(2) && slots == [3, 4, 9]
}

fn fit_one_slot(bytes: &[u8]) -> bool {
    let mut one = [9u8; 1];
    read_counted(&mut one, &mut Cursor::of(bytes)).is_some()
}

/// Whether these are the bytes of a row of two, which doesn't fit in one slot.
fn are_of_two(bytes: &[u8]) -> bool {
    bytes == [0, 2, 3, 4].as_slice() && fill_two_slots(bytes) && !fit_one_slot(bytes)
}

fn is_row_spelled(alloc: Global) -> bool {
    match counted(alloc) {
        Ok(bytes) => are_of_two(&bytes),
        Err(_) => false,
    }
}

#[test]
fn a_row_stands_behind_its_length(rt: HostRuntime) {
    assert!(rt; is_row_spelled(rt.alloc()));
}

fn is_hex_spelled(alloc: Global, word: &[u8], bytes: &[u8]) -> bool {
    match HexName::read(word) {
        Some(hex) => is_spelled(alloc, &hex, bytes),
        None => false,
    }
}

fn are_names_spelled(alloc: Global) -> [bool; 5] {
    [
        is_hex_spelled(alloc, b"D10", &[3, b'D', b'1', b'0']),
        is_none::<HexName>(&[1, b'd']),
        is_none::<HexName>(&[2, b'D']),
        is_spelled(alloc, &Corp::Erie, &[5]),
        is_none::<Corp>(&[8]),
    ]
}

#[test]
fn names_are_words_and_corporations_bytes(rt: HostRuntime) {
    assert!(rt; are_names_spelled(rt.alloc()) == [true; 5]);
}

/// Whether the cursor gives two bytes, a number and a byte, and then nothing.
fn gives_in_turn(cursor: &mut Cursor) -> bool {
    let first = cursor.bytes(2) == Some([1, 2].as_slice());
    let second = cursor.u32() == Some(50_595_078);
    let more = !cursor.is_empty();
    let third = cursor.u8() == Some(7);
    let last = cursor.is_empty() && cursor.bytes(1).is_none();
    first && second && more && third && last
}

fn gives_numbers() -> bool {
    let short = Cursor::of(&[1, 2]).u16() == Some(258);
    let long = Cursor::of(&[0, 0, 0, 0, 0, 0, 1, 2]).u64() == Some(258);
    short && long && Cursor::of(&[0; 7]).u64().is_none()
}

#[test]
fn a_cursor_gives_what_is_left(rt: HostRuntime) {
    let mut cursor = Cursor::of(&[1, 2, 3, 4, 5, 6, 7]);
    assert!(rt; gives_in_turn(&mut cursor) && gives_numbers());
}
