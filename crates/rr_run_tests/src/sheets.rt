//! The words of sheets and certificates, read and written.
use rr_roster::Kind;
use rr_routes::CertTree;
use rr_routes::sheets::{
    Fault, LinkNumbers, Sheet, TrainWord, laws, read_certificate, write_certificate,
};
use std::alloc::Global;
use std::process::Abort;

// The calls below have no contracts, so that what a test does costs its proof little.

/// Adds the word of a train with these links.
pub(crate) fn add_word(
    rt: &impl Abort,
    alloc: Global,
    sheet: &mut Sheet,
    kind: Kind,
    numbers: &[u64],
) {
    let mut links = LinkNumbers::new(alloc);
    for number in numbers {
        links.push(*number).expect(rt, "memory");
    }
    sheet.push(TrainWord { kind, links }).expect(rt, "memory");
}

/// Whether the word is that of a train of the kind with these links.
pub(crate) fn is_word(word: &TrainWord, kind: Kind, numbers: &[u64]) -> bool {
    word.kind == kind && word.links.as_slice() == numbers
}

/// Stops where another text is written of the sheet.
fn check_text(rt: &impl Abort, alloc: Global, sheet: &Sheet, wanted: &[u8]) {
    let text = sheet.to_text(alloc).expect(rt, "memory");
    assert!(rt; text.as_slice() == wanted);
}

/// Why the text is no sheet; where it is one, it is written as it was read.
fn refusal(rt: &impl Abort, alloc: Global, text: &[u8]) -> Option<Fault> {
    match Sheet::read(alloc, text) {
        Ok(sheet) => {
            check_text(rt, alloc, &sheet, text);
            None
        }
        Err(fault) => Some(fault),
    }
}

/// Stops where one of the texts is refused otherwise.
fn check_sheets(rt: &impl Abort, alloc: Global, texts: &[&str], wanted: Option<Fault>) {
    for text in texts {
        assert!(rt; refusal(rt, alloc, text.as_bytes()) == wanted);
    }
}

static SHEETS: [&str; 4] = ["2=1-2-3 2=-", "D=7-0-1234567890", "3=- 4=- 5=1 6=2 D=-", ""];

#[test]
fn reads_and_writes_sheets(rt: HostRuntime) {
    check_sheets(&rt, rt.alloc(), &SHEETS, None);
}

/// Whether these are the words of a 2 with three links and of a diesel without any.
fn are_two_words(words: &[TrainWord]) -> bool {
    match words {
        [first, second] => {
            is_word(first, Kind::Two, &[1, 20, 3]) && is_word(second, Kind::Diesel, &[])
        }
        _ => false,
    }
}

#[test]
fn tells_the_words_of_a_sheet(rt: HostRuntime) {
    let rt = &rt;
    let sheet = Sheet::read(rt.alloc(), b"2=1-20-3 D=-").expect(rt, "a sheet");
    assert!(rt; are_two_words(sheet.as_slice()));
}

static NO_SHEETS: [&str; 13] = [
    "2=01",
    "2=",
    "2",
    "=1",
    "7=1",
    "22=1",
    "2=1-",
    "2=1--2",
    "2=12345678901",
    "2=a",
    " 2=-",
    "2=- ",
    "2=-  2=-",
];

#[test]
fn refuses_other_sheets(rt: HostRuntime) {
    check_sheets(&rt, rt.alloc(), &NO_SHEETS, Some(Fault::Malformed));
}

#[test]
fn writes_a_sheet_that_was_made(rt: HostRuntime) {
    let rt = &rt;
    let mut sheet = Sheet::new(rt.alloc());
    add_word(rt, rt.alloc(), &mut sheet, Kind::Six, &[4, 5]);
    check_text(rt, rt.alloc(), &sheet, b"6=4-5");
}

/// Stops where another text is written of the tree.
fn check_tree(rt: &impl Abort, alloc: Global, tree: &CertTree, wanted: &[u8]) {
    let text = write_certificate(alloc, tree).expect(rt, "memory");
    assert!(rt; text.as_slice() == wanted);
}

/// Why the text is no certificate of so many trains; where it is one, it is written as it was read.
fn tree_refusal(rt: &impl Abort, alloc: Global, trains: usize, text: &[u8]) -> Option<Fault> {
    match read_certificate(alloc, trains, text) {
        Ok(tree) => {
            check_tree(rt, alloc, &tree, text);
            None
        }
        Err(fault) => Some(fault),
    }
}

/// Stops where one of the texts, each behind the number of its trains, is refused otherwise.
fn check_certificates(
    rt: &impl Abort,
    alloc: Global,
    texts: &[(usize, &str)],
    wanted: Option<Fault>,
) {
    for (trains, text) in texts {
        assert!(rt; tree_refusal(rt, alloc, *trains, text.as_bytes()) == wanted);
    }
}

static CERTIFICATES: [(usize, &str); 4] = [
    (1, "s5 b s1 b s4 x1 x1"),
    (0, "s3 f"),
    (2, "s1 b x1 s2 f f x2"),
    (4, "b"),
];

#[test]
fn reads_and_writes_certificates(rt: HostRuntime) {
    check_certificates(&rt, rt.alloc(), &CERTIFICATES, None);
}

/// Whether the tree splits the fifth link, into a full leaf and a bad one of the seventh train.
fn is_split(tree: &CertTree) -> bool {
    match tree {
        CertTree::Split(4, children) => {
            matches!(children.as_slice(), [CertTree::Full, CertTree::Bad(6)])
        }
        _ => false,
    }
}

#[test]
fn reads_a_tree(rt: HostRuntime) {
    let rt = &rt;
    let tree = read_certificate(rt.alloc(), 1, b"s5 f x7").expect(rt, "a certificate");
    assert!(rt; is_split(&tree));
}

/// Words that are no tree, each of a right form.
static NO_TREES: [(usize, &str); 6] = [
    (1, "s5 b s1 b s4 x1 x1 b"),
    (1, "s5 b"),
    (1, "b b"),
    (1, ""),
    (1, "s0 b b"),
    (1, "x0"),
];

static MALFORMED: [(usize, &str); 8] = [
    (1, "s01 b b"),
    (1, "s5 s01"),
    (1, "s12345678901 b b"),
    (1, "sx b b"),
    (1, "s b b"),
    (1, "b1"),
    (1, "b "),
    (1, "s5  b b"),
];

#[test]
fn refuses_other_certificates(rt: HostRuntime) {
    let rt = &rt;
    check_certificates(rt, rt.alloc(), &NO_TREES, Some(Fault::CertificateRefused));
    check_certificates(rt, rt.alloc(), &MALFORMED, Some(Fault::Malformed));
}

/// A text that begins with these words so many times, and ends with a leaf.
pub(crate) fn deep_text(
    rt: &impl Abort,
    alloc: Global,
    words: &[u8],
    times: usize,
    leaf: u8,
) -> Vec<u8> {
    let mut text = Vec::new(alloc);
    for _time in 0..times {
        text.extend_from_slice(words).expect(rt, "memory");
    }
    text.push(leaf).expect(rt, "memory");
    text
}

/// Why there is no certificate without trains of so many splits, each but the last with a split as its child.
fn deep_refusal(rt: &impl Abort, alloc: Global, splits: usize) -> Option<Fault> {
    let text = deep_text(rt, alloc, b"s1 ", splits, b'b');
    tree_refusal(rt, alloc, 0, &text)
}

#[test]
fn certificates_have_at_most_4096_nodes(rt: HostRuntime) {
    let rt = &rt;
    assert!(rt; deep_refusal(rt, rt.alloc(), 4095) == None);
    assert!(rt; deep_refusal(rt, rt.alloc(), 4096) == Some(Fault::CertificateRefused));
}

#[test]
fn writes_any_place(rt: HostRuntime) {
    let rt = &rt;
    let tree = CertTree::Bad(usize::MAX);
    check_tree(rt, rt.alloc(), &tree, b"x18446744073709551616");
}

#[test]
fn laws_are_called() {
    laws::one_meaning();
    laws::accepted_is_spelled();
    laws::read_is_spelled();
}
