//! Files that are broken off behind any of their bytes.

use crate::setting::{HELD, run};
use pg_tool::Status;
use std::alloc::Global;
use std::process::Abort;
use std::test::Fail;

/// A file that is broken off.
#[derive(Clone, Copy)]
struct Row {
    /// The command that takes it under the name `c`.
    line: &'static str,
    /// How the fronts end that are whole files, and how many there are.
    ends: &'static [&'static str],
    count: u32,
    /// How the others are refused.
    status: Status,
    /// How the line begins that tells so, and whether the number of the last line of the front stands behind it.
    told: &'static str,
    by_line: bool,
}

/// A description is whole behind the head and behind each instruction, with or without the end of the line.
const DESCRIPTION: Row = Row {
    line: "print c",
    ends: &["\n}", "\n}\n"],
    count: 10,
    status: Status::Description,
    told: "description: ",
    by_line: false,
};

/// An image of three lines is whole behind each of them, with or without its end.
const IMAGE: Row = Row {
    line: "bare m0 c --grant 16 --steps 0",
    ends: &[
        "2: 04000408",
        "2: 04000408\n",
        "7: 01000707",
        "7: 01000707\n",
        "11: 00000005",
        "11: 00000005\n",
    ],
    count: 6,
    status: Status::Image,
    told: "image 0: grammar ",
    by_line: true,
};

const LINES: &[u8] = b"2: 04000408\n7: 01000707\n11: 00000005\n";

/// A certificate is whole behind its last line alone.
const CERTIFICATE: Row = Row {
    line: "verify one c",
    ends: &["\nend\n"],
    count: 1,
    status: Status::Certificate,
    told: "certificate: ",
    by_line: false,
};

/// Whether a front ends as a whole file does.
fn is_whole(front: &[u8], row: Row) -> bool {
    row.ends.iter().any(|end| front.ends_with(end.as_bytes()))
}

/// Whether a refusal is told as the row says, of a front with so many whole lines.
fn is_told(text: &str, row: Row, lines: usize) -> bool {
    match text.strip_prefix(row.told) {
        None => false,
        Some(_) if !row.by_line => true,
        Some(number) => match lines {
            0 => number == "1\n",
            1 => number == "2\n",
            _ => number == "3\n",
        },
    }
}

/// How many lines of a front have their end.
fn ends_of_lines(front: &[u8]) -> usize {
    let mut lines: usize = 0;
    for byte in front {
        lines = lines.wrapping_add(usize::from(*byte == b'\n'));
    }
    lines
}

/// A front is taken where it is whole, and else refused. Whether it is whole.
fn is_judged(rt: &impl Abort, alloc: Global, front: &[u8], row: Row) -> Result<bool, Fail> {
    let left = run(alloc, row.line, front, &[], &[])?;
    let whole = is_whole(front, row);
    let lines = ends_of_lines(front);
    let is_right = if whole {
        left.status == Status::Done
    } else {
        left.status == row.status && is_told(left.text(), row, lines)
    };
    assert!(rt; is_right, "{}: {}", row.line, front.len());
    Ok(whole)
}

/// Each front of a file but the empty one is judged, and as many are whole as the row says.
fn are_judged(rt: &impl Abort, alloc: Global, file: &[u8], row: Row) -> Result<(), Fail> {
    let mut wholes: u32 = 0;
    for length in 1..=file.len() {
        let front = file.get(..length).unwrap_or(file);
        let whole = is_judged(rt, alloc, front, row)?;
        wholes = wholes.wrapping_add(u32::from(whole));
    }
    assert!(rt; wholes == row.count, "{}: {wholes}", row.line);
    Ok(())
}

#[test]
fn a_file_that_is_broken_off_is_refused(rt: HostRuntime) -> Result<(), Fail> {
    let printed = run(rt.alloc(), "print m0", HELD, &[], &[])?;
    are_judged(&rt, rt.alloc(), printed.text().as_bytes(), DESCRIPTION)?;
    are_judged(&rt, rt.alloc(), LINES, IMAGE)?;
    let checked = run(rt.alloc(), "check one --cert c", HELD, &[], &[])?;
    are_judged(&rt, rt.alloc(), checked.held(), CERTIFICATE)
}
