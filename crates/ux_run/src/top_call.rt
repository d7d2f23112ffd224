//! The top call: the words, the folder and the sinks in, a status out.

ghost use Rattle.std.specs.Prelude.{◌≡◌, ◌≢◌, ◌⊎◌, ℕ, ◌≤◌, List, IfOk, IfErr, map, string_bytes};
ghost use Rattle.ux_base.specs.Outside.{Appended, AppendedFront, IsLater, Rose};
ghost use Rattle.ux_status.specs.Statuses.{line_of};
ghost use Rattle.ux_plan.specs.declared.stop.Stop.{Stop};
ghost use Rattle.ux_reasons.specs.declared.reason.Reason.{Reason};
ghost use Rattle.ux_run.specs.Running.{asked_by, Denies, EndsBy, IsAnswer, IsAnswerable, IsAsked, IsStopped, status_of, WritesNothing};

use crate::commands::answer_to;
use std::alloc::Global;
use ux_base::{Folder, Sink};
use ux_command_line::{Request, WordsError};
use ux_status::{Status, tell};

/// Does what the words ask for. The result is built whole, and then written to `out`; where there
/// is none, one line on `err` says why.
#[tactic(auto, using(crate::proofs::Ending::endings))]
pub fn run<F: Folder, S: Sink, E: Sink>(
    alloc: Global,
    words: &[String],
    folder: &mut F,
    out: &mut S,
    err: &mut E,
) -> Status
    // The result was written whole.
    ensures done { result ≡ Status.Done → (answer : List ℕ)
        × IsAnswer (asked_by (map string_bytes words.now)) (F.seen folder.old).files answer
        × Appended (S.written out.old) (S.written out.new) answer }
    // Each other ending has its cause.
    ensures causes { EndsBy (asked_by (map string_bytes words.now)) (F.seen folder.old)
        (F.seen folder.new) (Rose (S.faults out.old) (S.faults out.new)
        ⊎ Rose (E.faults err.old) (E.faults err.new)) result }
    ensures usage { ¬ IsAsked (asked_by (map string_bytes words.now)) →
        (result ≡ Status.Usage) ⊎ (result ≡ Status.NoMemory)
        ⊎ ((result ≡ Status.WriteFault) × Rose (E.faults err.old) (E.faults err.new)) }
    // What was written: nothing, or a prefix of the result; and the line of the ending on `err`.
    ensures nothing { WritesNothing result → S.written out.new ≡ S.written out.old }
    ensures front { result ≡ Status.WriteFault → (S.written out.new ≡ S.written out.old)
        ⊎ ((answer : List ℕ)
        × IsAnswer (asked_by (map string_bytes words.now)) (F.seen folder.old).files answer
        × AppendedFront (S.written out.old) (S.written out.new) answer) }
    ensures line { WritesNothing result →
        Appended (E.written err.old) (E.written err.new) (line_of result) }
    ensures write_line { result ≡ Status.WriteFault →
        ¬ Rose (E.faults err.old) (E.faults err.new) →
        Appended (E.written err.old) (E.written err.new) (line_of result) }
    // Where a write to `err` failed, a prefix of the line of an ending that has its cause.
    ensures cut_line { result ≡ Status.WriteFault →
        Rose (E.faults err.old) (E.faults err.new) → (status : Status) × (status ≢ Status.Done)
        × EndsBy (asked_by (map string_bytes words.now)) (F.seen folder.old)
        (F.seen folder.new) (Rose (S.faults out.old) (S.faults out.new)) status
        × AppendedFront (E.written err.old) (E.written err.new) (line_of status) }
    ensures no_line { result ≡ Status.Done → E.written err.new ≡ E.written err.old }
    ensures files { IsLater (F.seen folder.old) (F.seen folder.new) }
    // A request whose files are all accepted is answered, unless a read or a write failed or memory
    // ran out.
    ensures complete { IsAnswerable (asked_by (map string_bytes words.now)) (F.seen folder.old) →
        ¬ Rose (F.seen folder.old).faults (F.seen folder.new).faults →
        ¬ (Rose (S.faults out.old) (S.faults out.new)
        ⊎ Rose (E.faults err.old) (E.faults err.new)) →
        (result ≡ Status.Done) ⊎ (result ≡ Status.NoMemory) }
    // A request whose files aren't all accepted tells the first of these in the order of reading, and
    // its reason, unless a read or a write failed or memory ran out.
    ensures refused { (stop : Stop Reason) →
        IsStopped (asked_by (map string_bytes words.now)) (F.seen folder.old) stop →
        ¬ Rose (F.seen folder.old).faults (F.seen folder.new).faults →
        ¬ Rose (E.faults err.old) (E.faults err.new) →
        (result ≡ status_of stop) ⊎ (result ≡ Status.NoMemory) }
{
    let result = match answer(alloc, words, folder) {
        Ok(result) => result,
        Err(status) => return ended(err, status),
    };
    match out.write_all(result.as_slice()) {
        Ok(()) => Status::Done,
        Err(_) => ended(err, Status::WriteFault),
    }
}

/// The result that the words ask for, or how the run ends without one.
#[tactic(auto, using(crate::proofs::Ending::memory_denies))]
fn answer<F: Folder>(alloc: Global, words: &[String], folder: &mut F) -> Result<Vec<u8>, Status>
    ensures later { IsLater (F.seen folder.old) (F.seen folder.new) }
    ensures ok { IfOk result (λ answer.
        IsAnswer (asked_by (map string_bytes words.now)) (F.seen folder.old).files answer.items) }
    ensures err { IfErr result (Denies (asked_by (map string_bytes words.now))
        (F.seen folder.old) (F.seen folder.new)) }
{
    match Request::of(alloc, words) {
        Ok(request) => answer_to(alloc, &request, folder),
        Err(WordsError::Usage) => Err(Status::Usage),
        Err(WordsError::NoMemory) => Err(Status::NoMemory),
    }
}

/// The status, unless its line can't be written.
fn ended<E: Sink>(err: &mut E, status: Status) -> Status
    requires { status ≢ Status.Done }
    ensures later { E.faults err.old ≤ E.faults err.new }
    ensures status { ((result ≡ status)
        × Appended (E.written err.old) (E.written err.new) (line_of status))
        ⊎ ((result ≡ Status.WriteFault) × Rose (E.faults err.old) (E.faults err.new)
        × AppendedFront (E.written err.old) (E.written err.new) (line_of status)) }
{
    match tell(err, &status) {
        Ok(()) => status,
        Err(_) => Status::WriteFault,
    }
}
