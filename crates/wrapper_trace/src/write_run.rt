//! Runs.

use crate::write_json::{Writable, write_member, write_text};
use std::fmt::Write;
use wit_model::{OutOfMemory, Text};
use wrapper_data::{CallPoint, Request, Run, Stop, Target, TrapKind};

impl Writable for Run {
    fn write(&self, out: &mut String) -> Result<(), OutOfMemory> {
        write_member(out, "{\"stop\":", &self.stop)?;
        write_member(out, ",\"calls\":", &self.calls)?;
        write_member(out, ",\"requests\":", &self.requests)?;
        write_member(out, ",\"heap\":", &self.heap)?;
        write_member(out, ",\"words\":", &self.words)?;
        write_member(out, ",\"value\":", &self.value)?;
        out.push_str("}")?;
        Ok(())
    }
}

impl Writable for Stop {
    fn write(&self, out: &mut String) -> Result<(), OutOfMemory> {
        match self {
            Stop::Done => out.push_str("\"done\"")?,
            Stop::Refused(request) => {
                out.push_str("{\"refused\":")?;
                request.write(out)?;
                out.push_str("}")?;
            }
            Stop::Trap(kind) => write!(out, "{{\"trap\":\"{}\"}}", trap_word(*kind))?,
            Stop::Stuck(number) => write!(out, "{{\"stuck\":{number}}}")?,
            Stop::BadChoice => out.push_str("\"bad-choice\"")?,
        }
        Ok(())
    }
}

fn trap_word(kind: TrapKind) -> &'static str {
    match kind {
        TrapKind::Discriminant => "discriminant",
        TrapKind::Bool => "bool",
        TrapKind::Char => "char",
        TrapKind::Utf8 => "utf8",
        TrapKind::HandleNumber => "handle-number",
        TrapKind::Pointer => "pointer",
        TrapKind::Size => "size",
        TrapKind::Block => "block",
    }
}

impl Writable for Request {
    fn write(&self, out: &mut String) -> Result<(), OutOfMemory> {
        write!(out, "{{\"size\":{},\"align\":{}}}", self.size, self.align)?;
        Ok(())
    }
}

impl Writable for CallPoint {
    fn write(&self, out: &mut String) -> Result<(), OutOfMemory> {
        write_member(out, "{\"target\":", &self.target)?;
        write_member(out, ",\"words\":", &self.words)?;
        write_member(out, ",\"values\":", &self.values)?;
        write_member(out, ",\"heap\":", &self.heap)?;
        out.push_str("}")?;
        Ok(())
    }
}

impl Writable for Target {
    fn write(&self, out: &mut String) -> Result<(), OutOfMemory> {
        match self {
            Target::Core(module, name) => write_named(out, "core", module, name),
            Target::Method(bound, name) => write_named(out, "method", bound, name),
        }
    }
}

fn write_named(out: &mut String, kind: &str, place: &Text, name: &Text) -> Result<(), OutOfMemory> {
    write!(out, "{{\"{kind}\":[")?;
    write_text(out, place.as_str())?;
    out.push_str(",")?;
    write_text(out, name.as_str())?;
    out.push_str("]}")?;
    Ok(())
}
