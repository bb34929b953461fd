//! What a run leaves on its output and on its error output.

ghost use Rattle.std.specs.Prelude.{◌≡◌, ◌≤◌, ◌⊎◌};
ghost use Rattle.rf_run.specs.Leaves.{Complained, WroteLine, Wrote, status_of_sign};
ghost use Rattle.rf_run.specs.Stages.{LeftAs, line_of_cut, status_of_cut};
ghost use Rattle.rf_run.specs.declared.end.End.TheVariants.{Answered, Refused};

use crate::end::{Cut, End, Reply, Sign};
use crate::lines::line;
use crate::{Refusal, Status};
use rf_io::{Sink, write_all};
use std::alloc::Global;

// Writes a line to the error output, or what of it can be written.
fn say<E: Sink>(err: &mut E, line: &str)
    ensures line { WroteLine (E.state err.old) (E.state err.new) line.now }
    ensures later { (E.state err.old).faults ≤ (E.state err.new).faults }
{
    let _ = write_all(err, line.as_bytes());
}

fn status_of_sign(sign: Sign) -> Status
    ensures { result ≡ status_of_sign sign }
{
    match sign {
        Sign::Yes => Status::Yes,
        Sign::No => Status::No,
        Sign::Unfinished => Status::Unfinished,
    }
}

/// Says on the error output what cut the run short.
pub fn leave_cut<E: Sink>(cut: Cut, err: &mut E) -> Status
    ensures status { result ≡ status_of_cut cut }
    ensures line { WroteLine (E.state err.old) (E.state err.new) (line_of_cut cut) }
    ensures later { (E.state err.old).faults ≤ (E.state err.new).faults }
{
    match cut {
        Cut::ReadFault => {
            say(err, "read fault\n");
            Status::ReadFault
        }
        Cut::Memory => {
            say(err, "out of memory\n");
            Status::NoMemory
        }
    }
}

// Writes an answer.
fn leave_reply<O: Sink, E: Sink>(reply: Reply, out: &mut O, err: &mut E) -> Status
    ensures status { LeftAs (Answered reply) result (O.state out.old) (O.state out.new) }
    ensures wrote { Wrote (λ e. e ≡ Answered reply) (O.state out.old) (O.state out.new) result }
    ensures complained { Complained (λ e. e ≡ Answered reply) (E.state err.old) (E.state err.new) result }
    ensures out_later { (O.state out.old).faults ≤ (O.state out.new).faults }
    ensures err_later { (E.state err.old).faults ≤ (E.state err.new).faults }
{
    match write_all(out, reply.text.as_str().as_bytes()) {
        Ok(()) => status_of_sign(reply.sign),
        Err(_) => {
            say(err, "write fault\n");
            Status::WriteFault
        }
    }
}

// Names a refusal on the error output.
fn leave_refusal<E: Sink>(alloc: Global, refusal: Refusal, err: &mut E) -> Status
    ensures status { (result ≡ Status.Refused) ⊎ (result ≡ Status.NoMemory) }
    ensures complained { Complained (λ e. e ≡ Refused refusal) (E.state err.old) (E.state err.new) result }
    ensures later { (E.state err.old).faults ≤ (E.state err.new).faults }
{
    match line(alloc, refusal) {
        Ok(text) => {
            say(err, text.as_str());
            Status::Refused
        }
        Err(_) => leave_cut(Cut::Memory, err),
    }
}

/// Leaves on the output and on the error output what a run leaves that ends so.
pub fn leave<O: Sink, E: Sink>(alloc: Global, end: End, out: &mut O, err: &mut E) -> Status
    ensures status { LeftAs end result (O.state out.old) (O.state out.new) }
    ensures wrote { Wrote (λ e. e ≡ end) (O.state out.old) (O.state out.new) result }
    ensures complained { Complained (λ e. e ≡ end) (E.state err.old) (E.state err.new) result }
    ensures out_later { (O.state out.old).faults ≤ (O.state out.new).faults }
    ensures err_later { (E.state err.old).faults ≤ (E.state err.new).faults }
{
    match end {
        End::Usage => {
            say(err, "usage\n");
            Status::Usage
        }
        End::Refused(refusal) => leave_refusal(alloc, refusal, err),
        End::Answered(reply) => leave_reply(reply, out, err),
    }
}
