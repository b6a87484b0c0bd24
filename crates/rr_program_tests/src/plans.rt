//! Plans for files of any names.
use rr_cli::Plan;
use std::alloc::{AllocError, Global};

/// What is asked for, with the names of the files that the plan is to have.
pub(crate) enum Asked {
    Format {
        file: &'static str,
        chart: &'static str,
        roster: &'static str,
        tiles: &'static str,
        board: &'static str,
    },
    Serve(&'static str),
    Check(&'static str),
}

pub(crate) fn plan_of(alloc: Global, asked: &Asked) -> Result<Plan, AllocError> {
    match *asked {
        Asked::Format {
            file,
            chart,
            roster,
            tiles,
            board,
        } => format_plan(alloc, [file, chart, roster, tiles, board]),
        Asked::Serve(name) => Ok(Plan::Serve {
            file: String::from_str(alloc, name)?,
        }),
        Asked::Check(name) => Ok(Plan::Check {
            file: String::from_str(alloc, name)?,
        }),
    }
}

fn format_plan(alloc: Global, names: [&str; 5]) -> Result<Plan, AllocError> {
    let [file, chart, roster, tiles, board] = names;
    Ok(Plan::Format {
        file: String::from_str(alloc, file)?,
        chart: String::from_str(alloc, chart)?,
        roster: String::from_str(alloc, roster)?,
        tiles: String::from_str(alloc, tiles)?,
        board: String::from_str(alloc, board)?,
    })
}
