//! The commands, each with how it ends where nothing fails.

use pg_tool::Status;

/// A command on the files: the words behind the program's name, how it ends, how many calls of the shelf read, and whether it
/// saves, by one call behind these, which it does under `c`.
pub(crate) type Row = (&'static str, Status, u64, bool);

/// The descriptions and images are loaded, each by one call, and so is a certificate that is made anew. Of a certificate that
/// is verified the size is asked first, and the last part of it is empty.
pub(crate) const ROWS: [Row; 31] = [
    ("bare m0 stay --grant 8 --steps 2", Status::Done, 2, false),
    ("bare m0 zeros --grant 8 --steps 2", Status::Done, 2, false),
    ("check none --cert c", Status::Done, 1, true),
    ("check one --cert c", Status::Done, 1, true),
    ("hcheck none --cert c", Status::Done, 1, true),
    ("hcheck one --cert c", Status::Done, 1, true),
    ("verify none end", Status::Done, 4, false),
    ("verify rtu open", Status::Unsettled, 4, false),
    ("replay rtu open", Status::Done, 4, false),
    (
        "run none end zeros zeros --grant 3 --steps 1",
        Status::Done,
        6,
        false,
    ),
    (
        "run rtu open zeros --grant 8 --steps 1",
        Status::Unsettled,
        5,
        false,
    ),
    (
        "hybrid none hend zeros zeros --grant 3 --steps 1",
        Status::Done,
        6,
        false,
    ),
    (
        "nest none end zeros --grant 2 --steps 1 --depth 3",
        Status::Done,
        5,
        false,
    ),
    ("print m0", Status::Done, 1, false),
    ("gen 2 1 --cert c", Status::Done, 0, true),
    ("migrate none end c", Status::Done, 2, true),
    ("migrate rtu open c", Status::Unsettled, 2, true),
    ("asm m0 source --grant 8", Status::Done, 2, false),
    ("asm m0 zeros --grant 8", Status::Done, 2, false),
    ("disasm m0 past --grant 8", Status::Done, 2, false),
    (
        "save none end zeros c --grant 3 --steps 1",
        Status::Done,
        5,
        true,
    ),
    (
        "resume none end kept --steps 1 --skip 2",
        Status::Done,
        5,
        false,
    ),
    // Refusals: their lines are put as other texts are.
    ("bare", Status::Words, 0, false),
    ("print zeros", Status::Description, 1, false),
    ("bare m0 m0 --grant 8 --steps 1", Status::Image, 2, false),
    ("verify m0 end", Status::Certificate, 3, false),
    (
        "run none end zeros --grant 7 --steps 1",
        Status::Room,
        1,
        false,
    ),
    ("asm m0 stay --grant 8", Status::Source, 2, false),
    ("resume none end zeros --steps 1", Status::Saved, 2, false),
    (
        "resume none end kept --steps 1 --skip 4",
        Status::Room,
        2,
        false,
    ),
    ("print nothing", Status::Missing, 1, false),
];
