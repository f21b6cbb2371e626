//! How each program takes its words.
//!
//! Each reads its words itself (`request`). Here they are looked at once more where they were refused, to say why, and for the
//! names that standard error tells.

use crate::form::{Form, OptionForm, Times, Value};
use crate::side::Side;
use pg_cli_says::Named;

/// Of `pg_explain`.
const EXPLAIN: Form = Form {
    places: &["DESC", "CERT", "INSTR", "KIND"],
    least: 2,
    options: &[
        OptionForm {
            name: "--budget",
            shown: "--budget K",
            value: Value::Number(1, 1_000_000),
            times: Times::AtMostOnce,
            against: &[],
        },
        OptionForm {
            name: "--mend",
            shown: "--mend FILE",
            value: Value::File,
            times: Times::AtMostOnce,
            against: &[],
        },
        OptionForm {
            name: "--readable",
            shown: "--readable",
            value: Value::Nothing,
            times: Times::AtMostOnce,
            against: &[],
        },
        OptionForm {
            name: "--json",
            shown: "--json",
            value: Value::Nothing,
            times: Times::AtMostOnce,
            against: &[],
        },
    ],
};

/// Of `pg_trace`.
const TRACE: Form = Form {
    places: &["DESC", "IMAGE"],
    least: 2,
    options: &[
        GRANT,
        OptionForm {
            name: "--steps",
            shown: "--steps N",
            value: Value::Number(0, 1_000_000),
            times: Times::Once,
            against: &[],
        },
        OptionForm {
            name: "--until",
            shown: "--until E",
            value: Value::End,
            times: Times::AtMostOnce,
            against: &[],
        },
        OptionForm {
            name: "--cert",
            shown: "--cert CERT",
            value: Value::File,
            times: Times::AtMostOnce,
            against: &[],
        },
        OptionForm {
            name: "--only-traps",
            shown: "--only-traps",
            value: Value::Nothing,
            times: Times::AtMostOnce,
            against: &[],
        },
        OptionForm {
            name: "--counts",
            shown: "--counts",
            value: Value::Nothing,
            times: Times::AtMostOnce,
            against: &[],
        },
        OptionForm {
            name: "--vcd",
            shown: "--vcd",
            value: Value::Nothing,
            times: Times::AtMostOnce,
            against: &["--json", "--only-traps", "--counts"],
        },
        OptionForm {
            name: "--json",
            shown: "--json",
            value: Value::Nothing,
            times: Times::AtMostOnce,
            against: &["--vcd", "--only-traps", "--counts"],
        },
    ],
};

/// Cells of a machine or of each guest.
const GRANT: OptionForm = OptionForm {
    name: "--grant",
    shown: "--grant G",
    value: Value::Number(2, 1_048_575),
    times: Times::Once,
    against: &[],
};

/// Steps at most, of what runs until it is still.
const STEPS_AT_MOST: OptionForm = OptionForm {
    name: "--steps",
    shown: "--steps N",
    value: Value::Number(0, 144_115_188_075_855_872),
    times: Times::AtMostOnce,
    against: &[],
};

/// Steps of a guest before the next has its turn.
const SLICE: OptionForm = OptionForm {
    name: "--slice",
    shown: "--slice K",
    value: Value::Number(1, 1_000_000),
    times: Times::AtMostOnce,
    against: &[],
};

/// A bare machine in place of guests.
const BARE: OptionForm = OptionForm {
    name: "--bare",
    shown: "--bare",
    value: Value::Nothing,
    times: Times::AtMostOnce,
    against: &["--slice"],
};

/// Cells that are told as words.
const SHOW: OptionForm = OptionForm {
    name: "--show",
    shown: "--show A..B",
    value: Value::Cells,
    times: Times::Often,
    against: &[],
};

/// Cells that are told as bytes.
const TEXT: OptionForm = OptionForm {
    name: "--text",
    shown: "--text A..B[:BITS]",
    value: Value::Bytes,
    times: Times::Often,
    against: &[],
};

/// Of `pg_go`, whose last eight words are images.
const GO: Form = Form {
    places: &[
        "DESC", "CERT", "IMAGE", "IMAGE", "IMAGE", "IMAGE", "IMAGE", "IMAGE", "IMAGE", "IMAGE",
    ],
    least: 3,
    options: &[GRANT, STEPS_AT_MOST, SLICE, SHOW, TEXT],
};

/// Of `pg_go --bare`.
const GO_BARE: Form = Form {
    places: &["DESC", "IMAGE"],
    least: 2,
    options: &[BARE, GRANT, STEPS_AT_MOST, SLICE, SHOW, TEXT],
};

/// Of `pg_dimacs`.
const DIMACS: Form = Form {
    places: &["DESC", "INSTR", "KIND"],
    least: 3,
    options: &[],
};

/// Of `pg_solve`, of which nothing is said by these words.
const SOLVE: Form = Form {
    places: &["FILE"],
    least: 1,
    options: &[],
};

/// Of `pg_import`.
const IMPORT: Form = Form {
    places: &["DESC", "CERT", "INSTR", "KIND", "PROOF", "FILE"],
    least: 6,
    options: &[],
};

/// Of `pg_export`.
const EXPORT: Form = Form {
    places: &["DESC", "CERT", "INSTR", "KIND"],
    least: 4,
    options: &[OptionForm {
        name: "--cnf",
        shown: "--cnf FILE",
        value: Value::File,
        times: Times::AtMostOnce,
        against: &[],
    }],
};

/// How a program takes these words, which stand behind its name.
pub fn form_of(side: Side, words: &[String]) -> &'static Form {
    match side {
        Side::Explain => &EXPLAIN,
        Side::Trace => &TRACE,
        Side::Go if is_bare(words) => &GO_BARE,
        Side::Go => &GO,
        Side::Dimacs => &DIMACS,
        Side::Solve => &SOLVE,
        Side::Import => &IMPORT,
        Side::Export => &EXPORT,
    }
}

/// Whether words ask for a bare machine.
fn is_bare(words: &[String]) -> bool {
    words.iter().any(|word| word.as_str() == BARE.name)
}

/// What the words of a program name, its name first.
pub fn named_by(side: Side, words: &[String]) -> Named<'_> {
    let [_, words @ ..] = words else {
        return Named::nothing();
    };
    let form = form_of(side, words);
    let desc = form.place(words, 0);
    let (cert, instr, saved) = match side {
        Side::Solve => return Named::nothing(),
        Side::Trace => (form.value(words, "--cert"), None, None),
        Side::Dimacs => (None, form.place(words, 1), None),
        Side::Go if is_bare(words) => (None, None, None),
        Side::Go => (form.place(words, 1), None, None),
        Side::Explain | Side::Export => (form.place(words, 1), form.place(words, 2), None),
        Side::Import => (
            form.place(words, 1),
            form.place(words, 2),
            form.place(words, 5),
        ),
    };
    Named {
        desc,
        cert,
        saved,
        instr,
        ..Named::nothing()
    }
}
