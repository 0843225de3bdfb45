// The end of a program: writes its answer to a sink.
ghost use Rattle.std.specs.Prelude.{◌≡◌, None};
ghost use Rattle.answer_meaning.specs.Program.{EndsBecause, EndsWritten, IsWritable, MayEnd};

use answer_meaning::{Answer, FileFault, ProgramEnd, Stop};
use command_words::Status;
use plex_io::Sink;
use text_parts::write_text;

/// Ends a program with its answer, or with what stopped the work on it.
///
/// Writes the answer or the refusal, and returns its status, and the fault if it is a refusal.
/// `Write` and no fault where a write failed. `Read` and no fault where a file is missing or a read
/// failed, and `Memory` and no fault (out of memory): nothing is written then.
pub fn end_with<K: Sink>(sink: &mut K, answered: Result<Answer, Stop>) -> ProgramEnd
    requires { MayEnd answered }
    ensures { EndsBecause answered (K.size sink.old) (K.written sink.old) (K.written sink.new)
        (K.faults sink.old) (K.faults sink.new) result }
{
    match answered {
        Ok(answer) => write_answer(sink, &answer, None),
        Err(Stop::Told { answer, fault }) => write_answer(sink, &answer, Some(fault)),
        Err(Stop::NotHeld) => silent_end(Status::Read),
        Err(Stop::Failed) => silent_end(Status::Read),
        Err(Stop::Memory) => silent_end(Status::Memory),
    }
}

/// The end with this status and no fault.
fn silent_end(status: Status) -> ProgramEnd
    ensures { result ≡ record { status = status; fault = None } }
{
    ProgramEnd {
        status,
        fault: None,
    }
}

/// Writes the answer. Returns its status, and the fault if it is a refusal; or `Write` and no fault
/// where a write failed.
#[tactic(auto, using(answer_meaning::proofs::Endings::fault_written))]
fn write_answer<K: Sink>(sink: &mut K, answer: &Answer, fault: Option<FileFault>) -> ProgramEnd
    requires { IsWritable answer.now fault }
    ensures { EndsWritten answer.now (K.size sink.old) (K.written sink.old) (K.written sink.new)
        (K.faults sink.old) (K.faults sink.new) result }
{
    match write_text(sink, &answer.text) {
        Ok(()) => ProgramEnd {
            status: answer.status,
            fault,
        },
        Err(_) => ProgramEnd {
            status: Status::Write,
            fault: None,
        },
    }
}
