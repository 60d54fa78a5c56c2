// The limits of programs, on scripts that are too long to be written out.
use crate::program::{says, write_number};
use std::alloc::{AllocError, Global};

// Appends so many times a text, each with its number, counted from 0, in place of a `#`.
fn repeat(script: &mut Vec<u8>, text: &str, count: usize) -> Result<(), AllocError> {
    for number in 0..count {
        for byte in text.as_bytes() {
            match byte {
                b'#' => write_number(script, number)?,
                _ => script.push(*byte)?,
            }
        }
    }
    Ok(())
}

// Whether `check` says this line of a script: `ok`, or a refusal.
fn check_says(alloc: Global, script: &[u8], line: &str) -> bool {
    if line == "ok\n" {
        return says(alloc, "check", script, line.as_bytes(), b"", 0);
    }
    says(alloc, "check", script, b"", line.as_bytes(), 1)
}

// Whether it says this line of texts, each so many times.
fn parts_say(alloc: Global, parts: &[(&str, usize)], line: &str) -> bool {
    let mut script = Vec::new(alloc);
    for (text, count) in parts {
        if repeat(&mut script, text, *count).is_err() {
            return false;
        }
    }
    check_says(alloc, script.as_slice(), line)
}

// What is made, as texts, each so many times, and what `check` says of it.
type Row = (&'static str, &'static [(&'static str, usize)], &'static str);

// Definitions; locals that are live at once; and levels: each number of a sum but the first is one.
const LIMITS: [Row; 9] = [
    ("1000 values", &[("(def d# 1)", 1000)], "ok\n"),
    (
        "1001 values",
        &[("(def d# 1)", 1001)],
        "refused 17 TooMany at 11890..11903\n",
    ),
    ("1000 functions", &[("(defn f# [] 1)", 1000)], "ok\n"),
    (
        "1001 functions",
        &[("(defn f# [] 1)", 1001)],
        "refused 17 TooMany at 15890..15907\n",
    ),
    (
        "200 locals",
        &[("(future (let [", 1), ("a 1 ", 200), ("] a))", 1)],
        "ok\n",
    ),
    (
        "201 locals",
        &[("(future (let [", 1), ("a 1 ", 201), ("] a))", 1)],
        "refused 17 TooMany at 814..815\n",
    ),
    (
        "1000 numbers",
        &[("(future (+", 1), (" 1", 1000), ("))", 1)],
        "ok\n",
    ),
    (
        "1001 numbers",
        &[("(future (+", 1), (" 1", 1001), ("))", 1)],
        "refused 17 TooMany at 11..12\n",
    ),
    (
        "1002 numbers",
        &[("(future (+", 1), (" 1", 1002), ("))", 1)],
        "refused 17 TooMany at 8..2015\n",
    ),
];

// What is made in the first of these rows of which `check` doesn't say its line, or nothing.
fn first_unsaid(alloc: Global, rows: &[Row]) -> &'static str {
    for (name, parts, line) in rows {
        if !parts_say(alloc, parts, line) {
            return name;
        }
    }
    ""
}

// Appends three functions of 50,000 nodes each, one of so many and one more, and what stands behind.
fn write_nodes(script: &mut Vec<u8>, count: usize, behind: &str) -> Result<(), AllocError> {
    for name in b"abcd" {
        script.extend_from_slice(b"(defn ")?;
        script.push(*name)?;
        script.extend_from_slice(b" []")?;
        repeat(script, " 1", if *name == b'd' { count } else { 49_999 })?;
        script.push(b')')?;
    }
    script.extend_from_slice(behind.as_bytes())
}

// Whether `check` says this line of them.
fn nodes_say(alloc: Global, count: usize, behind: &str, line: &str) -> bool {
    let mut script = Vec::new(alloc);
    write_nodes(&mut script, count, behind).is_ok() && check_says(alloc, script.as_slice(), line)
}

#[test]
fn definitions_locals_levels_and_nodes_are_limited(rt: HostRuntime) {
    let alloc = rt.alloc();
    let unsaid = first_unsaid(alloc, &LIMITS);
    assert!(rt; unsaid.is_empty(), "{unsaid}");
    assert!(rt; nodes_say(alloc, 49_999, "", "ok\n"));
    let line = "refused 28 CodeTooLarge at 400036..400044\n";
    assert!(rt; nodes_say(alloc, 49_999, "(future)", line));
    let fourth = "refused 28 CodeTooLarge at 300027..400038\n";
    assert!(rt; nodes_say(alloc, 50_000, "", fourth));
    assert!(rt; nodes_say(alloc, 49_998, "(future)", "ok\n"));
    let fifth = "refused 28 CodeTooLarge at 400042..400055\n";
    assert!(rt; nodes_say(alloc, 49_998, "(future)(defn e [] 1)", fifth));
}
