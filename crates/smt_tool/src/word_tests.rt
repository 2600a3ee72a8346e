//! Words that are planned, and words that are refused.

use std::alloc::Global;
use tool_words::command_line::plan;
use tool_words::words::{Command, Draw, Options, Plan, Unplanned};

// Whether the words ask for this command with these files.
fn asks(
    alloc: Global,
    words: &[&str],
    command: Command,
    proof: &str,
    script: Option<&str>,
) -> bool {
    match plan(alloc, words) {
        Ok(plan) => plan.command == command && plan.proof == proof && plan.script == script,
        Err(_) => false,
    }
}

// Whether the words ask to solve with this proof file and these numbers.
fn asks_within(alloc: Global, words: &[&str], numbers: [u32; 3]) -> bool {
    match plan(alloc, words) {
        Ok(plan) => {
            let options = Options {
                workers: numbers[0],
                cubes: numbers[1],
                budget: numbers[2],
            };
            plan.command == Command::Solve && plan.proof == "p" && plan.options == options
        }
        Err(_) => false,
    }
}

// Whether the words ask to draw this script, with this proof file.
fn asks_to_draw(alloc: Global, words: &[&str], seed: u64, size: u32) -> bool {
    match plan(alloc, words) {
        Ok(plan) => {
            let draw = Draw { seed, size };
            plan.command == Command::Drill && plan.proof == "p" && plan.draw == draw
        }
        Err(_) => false,
    }
}

fn is_refused(alloc: Global, words: &[&str]) -> bool {
    matches!(plan(alloc, words), Err(Unplanned::Usage))
}

/// Words that say all that can be said.
const ALL_WORDS: [&str; 9] = [
    "solve",
    "PROOF",
    "SCRIPT",
    "--workers",
    "4",
    "--cubes",
    "2",
    "--budget",
    "3",
];

// Whether all of these words are planned.
fn are_planned(alloc: Global) -> bool {
    match plan(alloc, &ALL_WORDS) {
        Ok(plan) => {
            plan.command == Command::Solve
                && plan.proof == "PROOF"
                && plan.script == Some("SCRIPT")
                && plan.options.workers == 4
                && (plan.options.cubes, plan.options.budget) == (2, 3)
        }
        Err(_) => false,
    }
}

/// Words that ask for `solve`, with the files of the proof and of the script.
const SOLVED: [(&[&str], &str, Option<&str>); 9] = [
    (&["solve", "p"], "p", None),
    (&["solve", "p", "s"], "p", Some("s")),
    (&["solve", "solve", "check"], "solve", Some("check")),
    (&["solve", "--", "--help"], "--help", None),
    (&["solve", "--", "-p", "-s"], "-p", Some("-s")),
    (&["solve", "p", "--", "s"], "p", Some("s")),
    (&["solve", "-"], "-", None),
    (&["solve", "p", "-"], "p", Some("-")),
    (&["solve", ""], "", None),
];

/// Words that ask for `check`, with these files.
const CHECKED: [(&[&str], &str, Option<&str>); 3] = [
    (&["check", "p"], "p", None),
    (&["check", "p", "s"], "p", Some("s")),
    (&["check", "--", "p"], "p", None),
];

/// Words that ask for `cnf`, with these files.
const SEARCHED: [(&[&str], &str, Option<&str>); 2] = [
    (&["cnf", "p"], "p", None),
    (&["cnf", "p", "c"], "p", Some("c")),
];

/// Words that ask for `drill`, with its seed and its size.
const DRAWN: [(&[&str], u64, u32); 5] = [
    (&["drill", "0", "1", "p"], 0, 1),
    (
        &["drill", "18446744073709551615", "1000", "p"],
        u64::MAX,
        1000,
    ),
    (
        &["drill", "--workers", "3", "7", "+2", "p", "--cubes=1"],
        7,
        2,
    ),
    (&["drill", "007", "2", "--", "p"], 7, 2),
    (&["drill", "7", "2", "--budget", "0", "p"], 7, 2),
];

/// Words that are refused.
const REFUSED: [&[&str]; 25] = [
    &[],
    &["solve"],
    &["check"],
    &["cnf"],
    &["cnf", "p", "c", "more"],
    &["cnf", "p", "--budget", "1"],
    &["solve", "p", "s", "more"],
    &["check", "p", "s", "more"],
    &["prove", "p"],
    &["Solve", "p"],
    &["sol", "p"],
    &["", "p"],
    &["p", "solve"],
    &["--", "solve", "p"],
    &["help"],
    &["help", "solve"],
    &["--help"],
    &["-h"],
    &["--version"],
    &["-V"],
    &["solve", "--help"],
    &["solve", "p", "-h"],
    &["check", "p", "--version"],
    &["solve", "p", "s", "--seed", "3"],
    &["--workers", "2", "solve", "p"],
];

/// Words that ask for `solve`, with its numbers: how many workers search, how many variables split a check, and how many clauses a
/// cube may learn.
const LIMITED: [(&[&str], [u32; 3]); 20] = [
    (&["solve", "p"], [1, 0, 100000]),
    (&["solve", "p", "--cubes", "1"], [1, 1, 100000]),
    (&["solve", "p", "--budget", "0"], [1, 0, 0]),
    (
        &["solve", "p", "--cubes", "10", "--budget", "1000000000"],
        [1, 10, 1000000000],
    ),
    (
        &["solve", "p", "s", "--budget", "3", "--cubes", "0"],
        [1, 0, 3],
    ),
    (
        &["solve", "--cubes", "2", "p", "--budget", "7", "s"],
        [1, 2, 7],
    ),
    (&["solve", "--cubes=3", "p"], [1, 3, 100000]),
    (&["solve", "--budget=12", "p", "s"], [1, 0, 12]),
    (&["solve", "--budget", "4", "--", "p"], [1, 0, 4]),
    (&["solve", "p", "--cubes", "007"], [1, 7, 100000]),
    (&["solve", "p", "--cubes", "+5"], [1, 5, 100000]),
    (
        &["solve", "p", "--budget", "0001000000000"],
        [1, 0, 1000000000],
    ),
    (&["solve", "p", "--", "--cubes"], [1, 0, 100000]),
    (&["solve", "--budget", "100000", "p"], [1, 0, 100000]),
    (&["solve", "p", "s", "--cubes=+0"], [1, 0, 100000]),
    (&["solve", "p", "--workers", "2"], [2, 0, 100000]),
    (&["solve", "--workers=1", "p"], [1, 0, 100000]),
    (
        &["solve", "p", "s", "--workers", "64", "--cubes", "10"],
        [64, 10, 100000],
    ),
    (&["solve", "--budget", "5", "--workers=+8", "p"], [8, 0, 5]),
    (&["solve", "p", "--", "--workers"], [1, 0, 100000]),
];

/// Words that are refused for their numbers.
const LIMITS_REFUSED: [&[&str]; 46] = [
    // no seed, no size, or one out of range
    &["drill", "0", "0", "p"],
    &["drill", "0", "1001", "p"],
    &["drill", "18446744073709551616", "1", "p"],
    &["drill", "-1", "1", "p"],
    &["drill", "0", "4294967297", "p"],
    &["drill", "x", "1", "p"],
    &["drill", "", "1", "p"],
    &["drill", "0", "p"],
    &["drill", "0", "1"],
    &["drill", "0", "1", "p", "s"],
    &["drill", "0", "1", "p", "--seed", "1"],
    // out of range
    &["solve", "p", "--cubes", "11"],
    &["solve", "p", "--cubes=4294967296"],
    &["solve", "p", "--budget", "1000000001"],
    &["solve", "p", "--budget", "18446744073709551616"],
    &["solve", "p", "--cubes=-1"],
    &["solve", "p", "--cubes", "-1"],
    &["solve", "p", "--workers", "0"],
    &["solve", "p", "--workers", "65"],
    &["solve", "--workers=4294967297", "p"],
    &["solve", "p", "--workers=-2"],
    // no whole number
    &["solve", "p", "--cubes", ""],
    &["solve", "p", "--cubes="],
    &["solve", "p", "--cubes", "x"],
    &["solve", "p", "--budget", "1.0"],
    &["solve", "p", "--budget", "1e3"],
    &["solve", "p", "--budget", "0x10"],
    &["solve", "p", "--budget", " 1"],
    &["solve", "p", "--cubes", "+"],
    &["solve", "p", "--workers", "two"],
    &["solve", "p", "--workers="],
    // without a value
    &["solve", "p", "--cubes"],
    &["solve", "p", "--budget", "--cubes", "1"],
    &["solve", "p", "--workers"],
    // twice
    &["solve", "p", "--cubes", "1", "--cubes", "1"],
    &["solve", "--budget=1", "p", "--budget", "2"],
    &["solve", "p", "--workers", "2", "--workers", "2"],
    // another name, another place
    &["solve", "p", "--cube", "1"],
    &["solve", "p", "-c", "1"],
    &["--cubes", "1", "solve", "p"],
    &["check", "p", "--cubes", "1"],
    &["check", "p", "s", "--budget=1"],
    &["check", "p", "--workers", "1"],
    &["cnf", "p", "--workers", "2"],
    &["solve", "p", "--worker", "2"],
    &["solve", "--cubes", "1"],
];

/// The number of the first row of words that does not ask for this command with these files, counted from 0.
fn first_other(
    alloc: Global,
    rows: &[(&[&str], &str, Option<&str>)],
    command: Command,
) -> Option<usize> {
    for at in 0..rows.len() {
        let (words, proof, script) = rows[at];
        if !asks(alloc, words, command, proof, script) {
            return Some(at);
        }
    }
    None
}

/// The number of the first row of words that sets other numbers.
fn first_unlimited(alloc: Global, rows: &[(&[&str], [u32; 3])]) -> Option<usize> {
    for at in 0..rows.len() {
        let (words, numbers) = rows[at];
        if !asks_within(alloc, words, numbers) {
            return Some(at);
        }
    }
    None
}

/// The number of the first row of words that does not ask for its script.
fn first_undrawn(alloc: Global, rows: &[(&[&str], u64, u32)]) -> Option<usize> {
    for at in 0..rows.len() {
        let (words, seed, size) = rows[at];
        if !asks_to_draw(alloc, words, seed, size) {
            return Some(at);
        }
    }
    None
}

/// The number of the first row of words that is not refused.
fn first_taken(alloc: Global, rows: &[&[&str]]) -> Option<usize> {
    for at in 0..rows.len() {
        if !is_refused(alloc, rows[at]) {
            return Some(at);
        }
    }
    None
}

#[test]
fn words_are_planned_or_refused(rt: HostRuntime) {
    let alloc = rt.alloc();
    assert!(rt; are_planned(alloc));
    let wrong = [
        ("solve", first_other(alloc, &SOLVED, Command::Solve)),
        ("check", first_other(alloc, &CHECKED, Command::Check)),
        ("cnf", first_other(alloc, &SEARCHED, Command::Cnf)),
        ("drill", first_undrawn(alloc, &DRAWN)),
        ("refused", first_taken(alloc, &REFUSED)),
        ("limits", first_unlimited(alloc, &LIMITED)),
        ("refused limits", first_taken(alloc, &LIMITS_REFUSED)),
    ];
    for (what, row) in &wrong {
        assert!(rt; row.is_none(), "{what}: {row:?}");
    }
}
