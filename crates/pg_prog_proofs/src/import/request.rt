//! What the words of the command line ask for.

ghost use Rattle.std.specs.Prelude.{map, string_bytes, IfSome};
ghost use Rattle.pg_prog_proofs.specs.Saved.{AsksImport};

use pg_cert::reading::kind;
use pg_type::Kind;

/// A finding that is to be taken from another solver.
#[derive(Clone, Copy)]
pub struct Request<'a> {
    /// The name of the description's file.
    pub desc: &'a str,
    /// The name of the certificate's file.
    pub cert: &'a str,
    /// The name of the instruction.
    pub instr: &'a str,
    /// The word of the kind.
    pub word: &'a str,
    /// The kind.
    pub kind: Kind,
    /// The name of the file with what the other solver wrote.
    pub proof: &'a str,
    /// The name of the file for the new certificate.
    pub file: &'a str,
}

/// The request of the words, the program's name first: `DESC CERT INSTR KIND PROOF FILE`. None where they are others.
pub fn asked_by(words: &[String]) -> Option<Request<'_>>
    ensures { IfSome result (AsksImport (map string_bytes words.now)) }
{
    let [_, desc, cert, instr, word, proof, file] = words else {
        return None;
    };
    Some(Request {
        desc: desc.as_str(),
        cert: cert.as_str(),
        instr: instr.as_str(),
        word: word.as_str(),
        kind: kind(word.as_bytes())?,
        proof: proof.as_str(),
        file: file.as_str(),
    })
}
