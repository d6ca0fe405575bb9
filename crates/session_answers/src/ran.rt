ghost use Rattle.std.specs.Prelude.{ℕ, IfOk};
ghost use Rattle.session_script.specs.Session.{IsSession};
ghost use Rattle.session_report.specs.Legal.{AreLegal};
ghost use Rattle.session_report.specs.Report.{IsReport};
ghost use Rattle.session_answers.specs.Numbers.{IsNumberInSession};
ghost use Rattle.session_answers.specs.Running.{IsBehind};

use crate::running::Running;
use author_desk::Asked;
use grove_io::Gate;
use replica_core::Replica;
use seeded_hash::HashSeed;
use session_report::JournalList;
use session_script::Session;
use std::alloc::Global;
use std::sync::Wait;
use std::thread::Threads;
use text_parts::NoMemory;

/// What a session that was run leaves: its report or its summary, and the journals of its blocks.
#[derive(Drop)]
pub struct Ran {
    pub text: Vec<u8>,
    pub journals: JournalList<Replica>,
}

/// Runs a session: its items one after the other, on replicas that are empty as it begins. What they look up they find by hashes
/// under a seed, and what the session leaves is the same whatever the seed is. The gate says when the calls of authors may start.
pub fn run_session<R: Threads + Wait + Sync, G: Gate>(
    rt: &R,
    alloc: Global,
    seed: HashSeed,
    session: &Session,
    gate: &G,
) -> Result<Ran, NoMemory>
    requires { IsSession session.now }
    ensures legal { IfOk result (λ ran. AreLegal session.now ran.journals) }
    ensures report { IfOk result (λ ran. IsReport session.now ran.journals ran.text.items) }
{
    let Running { journals, text, .. } = run_items(rt, alloc, seed, session, gate)?;
    Ok(Ran { text, journals })
}

/// Runs the items of a session, one after the other. The gate is asked for the numbers that the lines of authors have in the session, and
/// for no others.
pub(crate) fn run_items<R: Threads + Wait + Sync, G: Asked>(
    rt: &R,
    alloc: Global,
    seed: HashSeed,
    session: &Session,
    gate: &G,
) -> Result<Running, NoMemory>
    requires session { IsSession session.now }
    requires asked { (author number : ℕ) → IsNumberInSession session.now author number → G.may_ask gate.now author number }
    ensures { IfOk result (IsBehind session.now session.now.items) }
{
    let mut running = Running::new(alloc, seed, session)?;
    for (index, item) in session.items.as_slice().iter().enumerate() {
        running = running.run_item(rt, alloc, session, index, item, gate)?;
    }
    Ok(running)
}
