ghost use Rattle.std.specs.Prelude.{IfOk, IfErr};
ghost use Rattle.session_script.specs.Script.{HasScriptFault};
ghost use Rattle.session_script.specs.Session.{Spells};

use crate::reading::Reading;
use crate::script_kind::{ScriptFault, ScriptKind};
use crate::session::Session;
use crate::statement_reading::read_statement;
use crate::taking::take;
use std::alloc::Global;
use text_parts::split_at_first;

/// The session of a text, or its first bad line with its kind of fault.
pub fn read_session(alloc: Global, text: &[u8]) -> Result<Session, ScriptFault>
    ensures spelled { IfOk result (Spells text.now) }
    ensures fault { IfErr result (HasScriptFault text.now) }
{
    let mut reading = Reading::new(alloc);
    let mut rest = text;
    let mut line: u64 = 1;
    while let Some((bytes, after)) = split_at_first(rest, b'\n') {
        let statement = match read_statement(reading.version, bytes) {
            Ok(statement) => statement,
            Err(fault) => {
                let kind = ScriptKind::from(fault);
                return Err(ScriptFault::Bad { line, kind });
            }
        };
        if let Some(kind) = reading.first_fault(&statement) {
            return Err(ScriptFault::Bad { line, kind });
        }
        match take(&mut reading, alloc, statement) {
            Ok(()) => {}
            Err(_) => return Err(ScriptFault::NoMemory),
        }
        rest = after;
        line += 1;
    }
    if !rest.is_empty() {
        let kind = ScriptKind::Rest;
        return Err(ScriptFault::Bad { line, kind });
    }
    if !reading.is_between_items() {
        let kind = ScriptKind::Unended;
        return Err(ScriptFault::Bad { line, kind });
    }
    let Reading {
        version,
        replicas,
        authors,
        items,
        ..
    } = reading;
    Ok(Session {
        version,
        replicas,
        authors,
        items,
    })
}
