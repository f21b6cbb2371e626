//! What the words of the command line ask for.

ghost use Rattle.std.specs.Prelude.{◌≡◌, map, string_bytes, IfSome, Some};
ghost use Rattle.pg_cert.specs.Reading.{read_kind};
ghost use Rattle.pg_prog_proofs.specs.Exported.{AsksExport};

use pg_cert::reading::kind;
use pg_prog_base::Names;
use pg_type::Kind;

/// A finding that is to be told to others.
#[derive(Clone, Copy)]
pub struct Request<'a> {
    /// The names of the description's file, the instruction and the kind.
    pub names: Names<'a>,
    /// The name of the certificate's file.
    pub cert: &'a str,
    /// The kind.
    pub kind: Kind,
    /// The name of the file for the clauses, where they are to be saved.
    pub cnf: Option<&'a str>,
}

/// The request of the words, the program's name first: `DESC CERT INSTR KIND [--cnf FILE]`. None where they are others.
pub fn asked_by(words: &[String]) -> Option<Request<'_>>
    ensures { IfSome result (AsksExport (map string_bytes words.now)) }
{
    match words {
        [_, file, cert, instr, word] => {
            let names = names_of(file, instr, word);
            request_of(names, cert.as_str(), None)
        }
        [_, file, cert, instr, word, option, cnf] if option.as_str() == "--cnf" => {
            let names = names_of(file, instr, word);
            request_of(names, cert.as_str(), Some(cnf.as_str()))
        }
        _ => None,
    }
}

/// The names of these words.
fn names_of<'a>(file: &'a String, instr: &'a String, word: &'a String) -> Names<'a>
    ensures file { result.file.now ≡ string_bytes file.now }
    ensures instr { result.instr.now ≡ string_bytes instr.now }
    ensures word { result.word.now ≡ string_bytes word.now }
{
    Names {
        file: file.as_str(),
        instr: instr.as_str(),
        word: word.as_str(),
    }
}

/// The request of these names, of a certificate, and of the name of a file for the clauses. None where the word is of no kind.
fn request_of<'a>(names: Names<'a>, cert: &'a str, cnf: Option<&'a str>) -> Option<Request<'a>>
    ensures names { IfSome result (λ r. r.names ≡ names.entry) }
    ensures cert { IfSome result (λ r. r.cert ≡ cert.entry) }
    ensures kind { IfSome result (λ r. read_kind names.entry.word.now ≡ Some r.kind) }
    ensures cnf { IfSome result (λ r. r.cnf ≡ cnf.entry) }
{
    Some(Request {
        names,
        cert,
        kind: kind(names.word.as_bytes())?,
        cnf,
    })
}
