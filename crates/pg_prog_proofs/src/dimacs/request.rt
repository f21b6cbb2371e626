//! What the words of the command line ask for.

ghost use Rattle.std.specs.Prelude.{map, string_bytes, IfSome};
ghost use Rattle.pg_prog_proofs.specs.Exported.{AsksDimacs};

use pg_cert::reading::kind;
use pg_prog_base::Names;
use pg_type::Kind;

/// A question about one instruction of a description.
#[derive(Clone, Copy)]
pub struct Request<'a> {
    /// The names of the description's file, the instruction and the kind.
    pub names: Names<'a>,
    /// The kind.
    pub kind: Kind,
}

/// The request of the words, the program's name first: `DESC INSTR KIND`. None where they are others.
pub fn asked_by(words: &[String]) -> Option<Request<'_>>
    ensures { IfSome result (AsksDimacs (map string_bytes words.now)) }
{
    let [_, file, instr, word] = words else {
        return None;
    };
    Some(Request {
        names: Names {
            file: file.as_str(),
            instr: instr.as_str(),
            word: word.as_str(),
        },
        kind: kind(word.as_bytes())?,
    })
}
