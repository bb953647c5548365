//! The line that a run leaves on errors.
ghost use Rattle.std.specs.Prelude.{◌≡◌, ◌++◌, IfOk, Some, None, IfSome, true, false, codes};
ghost use Rattle.std.specs.Fmt.{decimal};
ghost use Rattle.tail_words.specs.SettingsText.{rule_number};
ghost use Rattle.exit_status.specs.Lines.{Noted, closed_line, is_made, kind_name, ended_line, usage_line};

use crate::closed::Closed;
use crate::ended::Ended;
use crate::writing::write_all;
use io_edge::Sink;
use net_rows::Kind;
use std::alloc::Global;
use tail_base::{NoMemory, Text};
use tail_words::SettingsRule;

/// The kind of a row, as a line names it.
fn kind_name(kind: Kind) -> &'static str
    ensures value { result.now ≡ kind_name kind }
{
    match kind {
        Kind::Meta => "meta",
        Kind::User => "user",
        Kind::Key => "key",
        Kind::Pending => "pending",
        Kind::Machine => "machine",
        Kind::Extras => "extras",
        Kind::Policy => "policy",
    }
}

/// The line of a connection that was served.
fn closed_line(closed: Closed) -> &'static str
    ensures value { result.now ≡ closed_line closed }
{
    match closed {
        Closed::End => "",
        Closed::Early => "tailnetd: closed early\n",
        Closed::ReadFault => "tailnetd: read fault\n",
        Closed::WriteFault => "tailnetd: write fault\n",
        Closed::NoMemory => "tailnetd: no memory\n",
    }
}

/// The line of a rule that settings break, at a key.
fn settings_line(alloc: Global, rule: SettingsRule, key: &str) -> Result<Text, NoMemory>
    ensures value { IfOk result (λ line.
        line ≡ codes "tailnetd: settings S" ++ decimal (rule_number rule) ++ codes " " ++ key.now
        ++ codes "\n") }
{
    let number = rule.number();
    Ok(Text::from_string(format!(in alloc; "tailnetd: settings S{number} {key}\n")?))
}

/// The line of a row that breaks a rule.
fn damaged_line(alloc: Global, kind: Kind, id: u32) -> Result<Text, NoMemory>
    ensures value { IfOk result (λ line.
        line ≡ codes "tailnetd: damaged " ++ kind_name kind ++ codes " " ++ decimal id
        ++ codes "\n") }
{
    let kind = kind_name(kind);
    Ok(Text::from_string(format!(in alloc; "tailnetd: damaged {kind} {id}\n")?))
}

/// Writes the line.
pub fn note_line<E: Sink>(errors: &mut E, line: &str)
    ensures noted { Noted line.now false (E.holds errors.old) (E.holds errors.new)
        (E.write_faults errors.old) (E.write_faults errors.new) }
{
    let _ = write_all(errors, line.as_bytes());
}

/// Writes the line, where there was memory for it.
fn note_made<E: Sink>(errors: &mut E, line: Result<Text, NoMemory>)
    ensures noted { (text : _) → IfOk line (λ made. made ≡ text)
        → Noted text true (E.holds errors.old) (E.holds errors.new)
        (E.write_faults errors.old) (E.write_faults errors.new) }
{
    if let Ok(line) = line {
        note_line(errors, line.as_str());
    }
}

/// Writes the line of how a run ended. A line that can't be made or written is left out, and the
/// status stays.
pub fn note<E: Sink>(alloc: Global, errors: &mut E, ended: &Ended)
    ensures noted { Noted (ended_line ended.now) (is_made ended.now)
        (E.holds errors.old) (E.holds errors.new)
        (E.write_faults errors.old) (E.write_faults errors.new) }
{
    match ended {
        Ended::Closed(closed) => note_line(errors, closed_line(*closed)),
        Ended::Settings { rule, key } => {
            note_made(errors, settings_line(alloc, *rule, key.as_str()))
        }
        Ended::TooLarge => note_line(errors, "tailnetd: file too large\n"),
        Ended::FileFault => note_line(errors, "tailnetd: read fault\n"),
        Ended::KeeperFault => note_line(errors, "tailnetd: keeper fault\n"),
        Ended::Damaged { kind, id } => note_made(errors, damaged_line(alloc, *kind, *id)),
        Ended::NoMemory => note_line(errors, "tailnetd: no memory\n"),
    }
}

/// Writes the line of words that are no command.
pub fn note_usage<E: Sink>(errors: &mut E)
    ensures noted { Noted usage_line false (E.holds errors.old) (E.holds errors.new)
        (E.write_faults errors.old) (E.write_faults errors.new) }
{
    note_line(errors, "tailnetd: usage\n");
}
