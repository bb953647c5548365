//! The command `policy-check`.
ghost use Rattle.std.specs.Prelude.{◌≡◌, ◌++◌, IfOk, false, codes};
ghost use Rattle.tail_base.specs.Steps.{Gives};
ghost use Rattle.policy_rows.specs.Faults.{fault_text};
ghost use Rattle.tailnet_commands.specs.Check.{Checked, Said, check_line, verdict_line, verdict_of, verdict_status};
ghost use Rattle.exit_status.specs.Lines.{Noted};

use crate::limits::FILE_LIMIT;
use exit_status::{Status, note_line, write_all};
use io_edge::{FileFault, Files, Sink};
use net_rows::Tables;
use policy_doc::read_policy;
use policy_rows::{PolicyFault, fault_text};
use policy_tests::tested;
use std::alloc::Global;
use tail_base::{Failure, NoMemory, Text};

/// Whether the text is a policy that passes its tests over no machines, or else its first fault.
#[tactic(auto, unfolding(crate::specs::Check::verdict_of))]
fn verdict_of(alloc: Global, text: &[u8]) -> Result<(), Failure<PolicyFault>>
    ensures value { Gives (λ x. x) result (verdict_of text.now) }
{
    let policy = read_policy(alloc, text)?;
    tested(alloc, &policy, &Tables::empty(alloc), &[])
}

/// What is said of a policy.
#[derive(Drop)]
struct Verdict {
    line: Text,
    status: Status,
}

/// What is said of a policy's fault.
fn fault_verdict(alloc: Global, fault: &PolicyFault) -> Result<Verdict, NoMemory>
    ensures line { IfOk result (λ v. v.line ≡ fault_text fault.now ++ codes "\n") }
    ensures status { IfOk result (λ v. v.status ≡ Status.Refused) }
{
    let mut line = fault_text(alloc, fault)?;
    line.push("\n")?;
    Ok(Verdict {
        line,
        status: Status::Refused,
    })
}

/// What is said of a text.
fn judge(alloc: Global, text: &[u8]) -> Result<Verdict, NoMemory>
    ensures line { IfOk result (λ v. v.line ≡ verdict_line (verdict_of text.now)) }
    ensures status { IfOk result (λ v. v.status ≡ verdict_status (verdict_of text.now)) }
{
    match verdict_of(alloc, text) {
        Ok(()) => Ok(Verdict {
            line: Text::from_str(alloc, "ok\n")?,
            status: Status::Ok,
        }),
        Err(Failure::Fault(fault)) => fault_verdict(alloc, &fault),
        Err(Failure::NoMemory) => Err(NoMemory),
    }
}

/// Writes what is said, and gives its status.
fn say<O: Sink>(output: &mut O, verdict: &Verdict) -> Status
    ensures said { Said verdict.now.line verdict.now.status result
        (O.holds output.old) (O.holds output.new)
        (O.write_faults output.old) (O.write_faults output.new) }
{
    match write_all(output, verdict.line.as_slice()) {
        Ok(()) => verdict.status,
        Err(_) => Status::WriteFault,
    }
}

/// Reads a policy file and writes what is said of it.
fn check_file<O: Sink, F: Files>(alloc: Global, file: &str, output: &mut O, files: &mut F) -> Status
    ensures checked { Checked result (F.holds files.old file.now) (F.faults files.old)
        (F.faults files.new) (O.holds output.old) (O.holds output.new)
        (O.write_faults output.old) (O.write_faults output.new) }
{
    let text = match files.read(alloc, file, FILE_LIMIT) {
        Ok(text) => text,
        Err(FileFault::Failed) => return Status::ReadFault,
        Err(FileFault::TooLarge) => return Status::Settings,
        Err(FileFault::NoMemory) => return Status::NoMemory,
    };
    match judge(alloc, &text) {
        Ok(verdict) => say(output, &verdict),
        Err(NoMemory) => Status::NoMemory,
    }
}

/// The line of a status on errors.
fn check_line(status: Status) -> &'static str
    ensures value { result.now ≡ check_line status }
{
    match status {
        Status::WriteFault => "tailnetd: write fault\n",
        Status::Settings => "tailnetd: file too large\n",
        Status::ReadFault => "tailnetd: read fault\n",
        Status::NoMemory => "tailnetd: no memory\n",
        Status::Ok
        | Status::Early
        | Status::Usage
        | Status::KeeperFault
        | Status::Damaged
        | Status::DoorFault
        | Status::Refused
        | Status::EntropyFault => "",
    }
}

/// Reads a policy file of at most 1 MiB, and writes `ok`, or the code and the place of its first
/// fault.
pub fn policy_check<O: Sink, E: Sink, F: Files>(
    alloc: Global,
    file: &str,
    output: &mut O,
    errors: &mut E,
    files: &mut F,
) -> Status
    ensures checked { Checked result (F.holds files.old file.now) (F.faults files.old)
        (F.faults files.new) (O.holds output.old) (O.holds output.new)
        (O.write_faults output.old) (O.write_faults output.new) }
    ensures noted { Noted (check_line result) false (E.holds errors.old) (E.holds errors.new)
        (E.write_faults errors.old) (E.write_faults errors.new) }
{
    let status = check_file(alloc, file, output, files);
    note_line(errors, check_line(status));
    status
}
