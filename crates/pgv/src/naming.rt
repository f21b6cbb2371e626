//! What the words of a command name, as far as standard error tells of it.

use pg_cli_says::{Named, Room};
use pg_cli_table::{CheckWords, FileName, Request, RunWords};

/// What a request names; nothing where there is none.
pub fn named_by(asked: Option<&Request>) -> Named<'_> {
    match asked {
        None => Named::nothing(),
        Some(request) => named_in(request),
    }
}

/// What a request names.
fn named_in(request: &Request) -> Named<'_> {
    match request {
        Request::Check(words) => searched(words, false),
        Request::Hcheck(words) => searched(words, true),
        Request::Run(words) => run(words, false),
        Request::Hybrid(words) => run(words, true),
        Request::Bare(words) => Named::desc(words.desc.as_str()),
        Request::Print(words) => Named::desc(words.desc.as_str()),
        Request::Asm(words) => Named::desc(words.desc.as_str()),
        Request::Disasm(words) => Named::desc(words.desc.as_str()),
        Request::Verify(words) => Named::judged(words.desc.as_str(), words.cert.as_str()),
        Request::Replay(words) => Named::judged(words.desc.as_str(), words.cert.as_str()),
        Request::Save(words) => Named::judged(words.desc.as_str(), words.cert.as_str()),
        Request::Migrate(words) => Named {
            saved: Some(words.file.as_str()),
            ..Named::judged(words.desc.as_str(), words.cert.as_str())
        },
        Request::Nest(words) => Named {
            room: Room::Monitors,
            ..Named::judged(words.desc.as_str(), words.cert.as_str())
        },
        Request::Resume(words) => Named {
            room: Room::Saved,
            ..Named::judged(words.desc.as_str(), words.cert.as_str())
        },
        Request::Gen(words) => Named {
            saved: Some(words.cert.as_str()),
            ..Named::nothing()
        },
    }
}

/// What `check` or `hcheck` is to do.
fn searched(words: &CheckWords, is_hybrid: bool) -> Named<'_> {
    Named {
        saved: Some(words.cert.as_str()),
        is_hybrid,
        has_budget: true,
        ..Named::desc(words.desc.as_str())
    }
}

/// What `run` or `hybrid` is to do.
fn run(words: &RunWords, is_hybrid: bool) -> Named<'_> {
    Named {
        is_hybrid,
        room: Room::Guests,
        ..Named::judged(words.desc.as_str(), words.cert.as_str())
    }
}
