//! A machine and its certificate as JSON: `docs/DATA.md` has its keys. Each instruction is put with its findings, one after another.

ghost use Rattle.std.specs.Prelude.{◌<◌, length};
ghost use Rattle.pg_cmd_base.specs.Answering.{OnlyReads};

use crate::request::Request;
use pg_cert::put::kind_name;
use pg_cert::{Family, Mark, Verdict};
use pg_cli_version::VERSION;
use pg_cmd_base::load_file;
use pg_cmd_certs::JudgedMachine;
use pg_edge::{LoadFault, Shelf, Sink};
use pg_mach_ready::Machine;
use pg_out_guarded::{broken_instrs, marks_at};
use pg_out_json::{
    Logs, Shown, SourceList, push_flag, push_head, push_instr, push_lines, push_open, push_refuted,
    push_shown, push_string, read_sources,
};
use pg_out_place::Text;
use pg_out_reasons::{Reasons, tell_single};
use pg_prog_base::Stop;
use pg_prog_base::files::{file_name, put};
use pg_type::Kind;
use pg_word::Sparse;
use std::alloc::{AllocError, Global};

/// How many bytes a description has at most.
const DESC_BYTES: u64 = 1_048_576;

/// How many bytes of a certificate are read at once.
const PART_BYTES: u64 = 65_536;

/// What is told of instructions beside their marks.
#[derive(Drop)]
struct Beside {
    sources: SourceList,
    logs: Logs,
    broken: Vec<bool>,
}

/// Puts a machine and its certificate, and what `told` says of them.
pub fn put_json<F: Shelf, S: Sink>(
    alloc: Global,
    request: &Request<'_>,
    judged: &JudgedMachine,
    told: &Reasons,
    shelf: &mut F,
    out: &mut S,
) -> Result<(), Stop>
    ensures reads { OnlyReads F.Shelf shelf.old shelf.new }
{
    match beside_of(alloc, request, judged, shelf) {
        Ok(beside) => put_parts(alloc, judged, &beside, told, out),
        Err(stop) => Err(stop),
    }
}

/// What is told of instructions beside their marks.
fn beside_of<F: Shelf>(
    alloc: Global,
    request: &Request<'_>,
    judged: &JudgedMachine,
    shelf: &mut F,
) -> Result<Beside, Stop>
    ensures reads { OnlyReads F.Shelf shelf.old shelf.new }
{
    let sources = sources_of(alloc, request.desc, shelf)?;
    let logs = logs_of(alloc, request.cert, shelf)?;
    let broken = broken_instrs(alloc, &judged.machine, &judged.report)?;
    Ok(Beside {
        sources,
        logs,
        broken,
    })
}

/// Puts them, one part behind the other.
fn put_parts<S: Sink>(
    alloc: Global,
    judged: &JudgedMachine,
    beside: &Beside,
    told: &Reasons,
    out: &mut S,
) -> Result<(), Stop> {
    let mut text = Text::new(alloc);
    push_begin(&mut text, judged);
    for instr in 0..judged.machine.count() {
        put_instr(alloc, out, &mut text, judged, beside, instr)?;
    }
    push_end(&mut text, told);
    put(out, text.whole()?)
}

/// The instructions in the text of the description, as it is now.
fn sources_of<F: Shelf>(alloc: Global, name: &str, shelf: &mut F) -> Result<SourceList, Stop>
    ensures reads { OnlyReads F.Shelf shelf.old shelf.new }
{
    let name = file_name(alloc, name)?;
    match load_file(alloc, &name, DESC_BYTES, shelf) {
        Ok(bytes) => Ok(read_sources(alloc, bytes.as_slice())?),
        Err(fault) => Err(stop_of(fault)),
    }
}

/// The lengths of the logs in the text of the certificate, as it is now.
fn logs_of<F: Shelf>(alloc: Global, name: &str, shelf: &mut F) -> Result<Logs, Stop>
    ensures reads { OnlyReads F.Shelf shelf.old shelf.new }
{
    let mut logs = Logs::new(alloc);
    feed_parts(alloc, name, shelf, &mut logs)?;
    logs.end()?;
    Ok(logs)
}

/// Feeds the parts of a file, one after another, until there is none.
fn feed_parts<F: Shelf>(
    alloc: Global,
    name: &str,
    shelf: &mut F,
    logs: &mut Logs,
) -> Result<(), Stop>
    ensures reads { OnlyReads F.Shelf shelf.old shelf.new }
{
    let mut at = 0u64;
    for _ in 0..u64::MAX {
        let part = load_part(alloc, name, at, shelf)?;
        if part.is_empty() {
            return Ok(());
        }
        logs.feed(part.as_slice())?;
        at = at.saturating_add(part.len() as u64);
    }
    Ok(())
}

/// Some bytes of a file from a place on; none where it ends there.
fn load_part<F: Shelf>(alloc: Global, name: &str, at: u64, shelf: &mut F) -> Result<Vec<u8>, Stop>
    ensures reads { OnlyReads F.Shelf shelf.old shelf.new }
{
    let mut bytes = Vec::new(alloc);
    match shelf.part(name, at, PART_BYTES, &mut bytes) {
        Ok(()) => Ok(bytes),
        Err(fault) => Err(stop_of(fault)),
    }
}

/// Why there are no bytes of a file that was read before.
fn stop_of(fault: LoadFault) -> Stop {
    match fault {
        LoadFault::Memory => Stop::Memory,
        LoadFault::Missing => Stop::Told(pg_cmd_base::Stop::Refused(pg_cmd_base::Refusal::Missing)),
        LoadFault::Long | LoadFault::Failed => Stop::Told(pg_cmd_base::Stop::ReadFault),
    }
}

/// Pushes what stands before the instructions: the form, the machine, the family and the verdict.
fn push_begin(text: &mut Text, judged: &JudgedMachine) {
    push_head(text, b"pg_explain", VERSION, &judged.machine);
    text.push(b",\n\"family\":");
    push_string(
        text,
        match judged.report.family {
            Family::Plain => b"check",
            Family::Hybrid => b"hcheck",
        },
    );
    push_verdict(text, &judged.machine, judged.report.verdict());
    text.push(b",\n\"instrs\":[");
}

/// Pushes a verdict, and of which instruction and kind it is.
fn push_verdict(text: &mut Text, m: &Machine, verdict: Verdict) {
    text.push(b",\n\"verdict\":{\"is\":");
    match verdict {
        Verdict::Accepted => text.push(b"\"accepted\""),
        Verdict::Refused(instr) => {
            text.push(b"\"refused\"");
            push_name(text, m, instr);
        }
        Verdict::Unsettled(instr, kind) => {
            text.push(b"\"open\"");
            push_name(text, m, instr);
            text.push(b",\"kind\":");
            push_string(text, kind_name(kind));
        }
    }
    text.push(b"}");
}

/// Pushes the name of an instruction, where there is one of this number.
fn push_name(text: &mut Text, m: &Machine, instr: usize) {
    if instr < m.count() {
        text.push(b",\"instr\":");
        push_string(text, m.name(instr));
    }
}

/// Puts an instruction with its findings, behind what the buffer holds.
fn put_instr<S: Sink>(
    alloc: Global,
    out: &mut S,
    text: &mut Text,
    judged: &JudgedMachine,
    beside: &Beside,
    instr: usize,
) -> Result<(), Stop>
    requires { instr < length judged.now.machine.desc.instrs }
{
    text.push(if instr == 0 { b"\n" } else { b",\n" });
    let source = beside.sources.as_slice().get(instr);
    let is_broken = beside.broken.as_slice().get(instr) == Some(&true);
    push_instr(alloc, text, &judged.machine, instr, source, is_broken)?;
    let marks = marks_at(&judged.machine, &judged.report, instr);
    for (k, mark) in marks.iter().enumerate() {
        push_mark(alloc, text, judged, beside, instr, k, mark)?;
        put(out, text.whole()?)?;
        text.clear();
    }
    text.push(b"]}");
    Ok(())
}

/// Pushes the mark of a kind of an instruction: `k` is the number of the kind in its family.
fn push_mark(
    alloc: Global,
    text: &mut Text,
    judged: &JudgedMachine,
    beside: &Beside,
    instr: usize,
    k: usize,
    mark: &Mark,
) -> Result<(), AllocError>
    requires { instr < length judged.now.machine.desc.instrs }
{
    let kinds = judged.report.family.kinds();
    let Some(kind) = kinds.get(k) else {
        return Ok(());
    };
    let log = beside
        .logs
        .of(instr.saturating_mul(kinds.len()).saturating_add(k));
    text.push(if k == 0 { b"\n" } else { b",\n" });
    match mark {
        Mark::Refuted => push_refuted(text, *kind, log),
        Mark::Spent(budget) => push_open(text, *kind, *budget, log),
        Mark::Shown(first, second) => {
            push_pair(alloc, text, &judged.machine, instr, *kind, first, second)?;
        }
    }
    Ok(())
}

/// Pushes two states that show a kind of an instruction, as the certificate's do; `null` where they do not.
fn push_pair(
    alloc: Global,
    text: &mut Text,
    m: &Machine,
    instr: usize,
    kind: Kind,
    first: &Sparse,
    second: &Sparse,
) -> Result<(), AllocError>
    requires { instr < length m.now.desc.instrs }
{
    match tell_single(alloc, m, instr, kind, first, second)? {
        None => text.push(b"null"),
        Some(single) => push_shown(
            text,
            m,
            kind,
            &Shown {
                first,
                second,
                told: &single.told,
                says: single.says.as_slice(),
            },
        ),
    }
    Ok(())
}

/// Pushes what stands behind the instructions: the lines of the whole, and whether guards mend the machine.
fn push_end(text: &mut Text, told: &Reasons) {
    text.push(b"],\n\"says\":");
    push_lines(text, told.text.as_slice());
    text.push(b",\"mended\":");
    push_flag(text, told.mended.is_some());
    text.push(b"}\n");
}
