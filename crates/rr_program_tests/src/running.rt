//! The program from its words on, over files of the system. What no contract says of these is tried on the built program
//! by `tools/try-the-program`.
use crate::calls::{empty_writer, has_written, reader_of, run_words};
use crate::kits::{ROSTER, texts};
use rr_cli::{FileSystem, HostFiles, fault_of};
use rr_disk::Unknown;
use rr_moderator::Fault;
use std::alloc::{AllocError, Global};
use std::io::ErrorKind;
use std::test::Fail;
use std::{env, fs, io, process};

/// The paths of a store's file and of a kit's, and one at which there is nothing.
#[derive(Drop)]
struct Paths {
    store: String,
    chart: String,
    roster: String,
    tiles: String,
    board: String,
    missing: String,
}

// The calls below have no contracts, so that what a test does costs its proof little.

fn path(alloc: Global, folder: &str, name: &str) -> Result<String, AllocError> {
    format!(in alloc; "{folder}/{name}")
}

fn paths_in(alloc: Global, folder: &str) -> Result<Paths, AllocError> {
    Ok(Paths {
        store: path(alloc, folder, "store")?,
        chart: path(alloc, folder, "chart")?,
        roster: path(alloc, folder, "roster")?,
        tiles: path(alloc, folder, "tiles")?,
        board: path(alloc, folder, "board")?,
        missing: path(alloc, folder, "missing")?,
    })
}

fn write_kit(rt: &HostRuntime, paths: &Paths) -> io::Result<()> {
    let texts = texts(ROSTER);
    fs::write(rt, paths.chart.as_str(), texts.chart)?;
    fs::write(rt, paths.roster.as_str(), texts.roster)?;
    fs::write(rt, paths.tiles.as_str(), texts.tiles)?;
    fs::write(rt, paths.board.as_str(), texts.board)
}

/// The words that make a store with this board.
fn format_words<'a>(paths: &'a Paths, board: &'a str) -> [&'a str; 10] {
    [
        "format",
        paths.store.as_str(),
        "--chart",
        paths.chart.as_str(),
        "--roster",
        paths.roster.as_str(),
        "--tiles",
        paths.tiles.as_str(),
        "--board",
        board,
    ]
}

/// What there is to read; with which status the program ends, what it writes, and why it refuses the words.
struct Run {
    input: &'static [u8],
    status: u8,
    told: &'static [u8],
    why: &'static [u8],
}

static WITHOUT_A_FILE: Run = Run {
    input: b"",
    status: 4,
    told: b"no 60 device failed\n",
    why: b"",
};

static WITHOUT_A_BOARD: Run = Run {
    input: b"",
    status: 4,
    told: b"no 69 stream failed\n",
    why: b"",
};

static FORMATTED: Run = Run {
    input: b"",
    status: 0,
    told: b"ok\n",
    why: b"",
};

static SERVED: Run = Run {
    input: b"0 g1 open a b\n1 g1 buy a\n",
    status: 0,
    told: b"ok g1 1\nok g1 2\n",
    why: b"",
};

static CHECKED: Run = Run {
    input: b"0 g2 open a b\n",
    status: 0,
    told: b"ok 1 2\n",
    why: b"",
};

static REFUSED: Run = Run {
    input: b"0 g2 open a b\n",
    status: 2,
    told: b"",
    why: b"error: unrecognized subcommand 'mend'

Usage: moderate <COMMAND>

For more information, try '--help'.
",
};

/// Whether the program ends with these words, and writes, as it says.
fn ends_so<F: FileSystem<Unknown>>(
    alloc: Global,
    files: &mut F,
    words: &[&str],
    run: &Run,
) -> bool {
    let mut reader = reader_of(run.input);
    let mut writer = empty_writer(alloc);
    let mut errors = empty_writer(alloc);
    let ended = run_words(
        alloc,
        words,
        Unknown,
        files,
        &mut reader,
        &mut writer,
        &mut errors,
    );
    let is_right = [
        ended.status == run.status,
        has_written(writer, run.told),
        has_written(errors, run.why),
    ];
    is_right == [true; 3]
}

/// Whether runs over these paths end as they say. Where a kit's file is missing, no store is made.
fn all_end_so<F: FileSystem<Unknown>>(alloc: Global, files: &mut F, paths: &Paths) -> bool {
    let store = paths.store.as_str();
    let missing = paths.missing.as_str();
    let without_board = format_words(paths, missing);
    let whole = format_words(paths, paths.board.as_str());
    let are_right = [
        ends_so(alloc, files, &without_board, &WITHOUT_A_BOARD),
        ends_so(alloc, files, &["check", store], &WITHOUT_A_FILE),
        ends_so(alloc, files, &whole, &FORMATTED),
        ends_so(alloc, files, &["serve", store], &SERVED),
        ends_so(alloc, files, &["check", store], &CHECKED),
        ends_so(alloc, files, &["serve", missing], &WITHOUT_A_FILE),
        ends_so(alloc, files, &["mend", store], &REFUSED),
    ];
    are_right == [true; 7]
}

#[test]
fn runs_by_its_words(rt: HostRuntime) -> Result<(), Fail> {
    let above = env::temp_dir(&rt)?;
    let number = process::id(rt.process());
    let folder = format!(in rt.alloc(); "{}/rr_cli_test_{number}", above.display())?;
    let paths = paths_in(rt.alloc(), folder.as_str())?;
    fs::create_dir(&rt, folder.as_str())?;
    write_kit(&rt, &paths)?;
    let are_right = all_end_so(rt.alloc(), &mut HostFiles::new(&rt), &paths);
    assert!(rt; are_right);
    fs::remove_dir_all(&rt, folder.as_str())?;
    Ok(())
}

#[test]
fn failures_of_the_system(rt: HostRuntime) {
    let are_right = [
        fault_of(ErrorKind::OutOfMemory) == Fault::OutOfMemory,
        fault_of(ErrorKind::NotFound) == Fault::StreamFailed,
    ];
    assert!(rt; are_right == [true; 2]);
}
