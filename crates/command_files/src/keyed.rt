//! A session with the keys that nothing reads.
ghost use Rattle.std.specs.Prelude.{◌≡◌, Ok, Err, IfOk, IfErr};
ghost use Rattle.session_plan.specs.Session.{session_of};
ghost use Rattle.session_plan.specs.Valid.{IsPlan};
ghost use Rattle.session_plan.specs.View.{plan_view};
ghost use Rattle.unread_keys.specs.Session.{unread_text};
ghost use Rattle.command_files.specs.Inputs.{keyed_file, plan_judged, session_file};
ghost use Rattle.command_files.specs.Judged.{IsJudged, beside, judged};
ghost use Rattle.command_files.specs.Keeping.{CanRead, KeepsFiles};
ghost use Rattle.command_files.specs.Logged.{IsRead, RefusesFile};
ghost use Rattle.command_files.specs.Refusing.{RefusesSo};

use crate::files::read_file;
use crate::inputs::{SESSION_LIMIT, plan_from, read_refusal};
use crate::refusal::{Input, Refusal};
use outside_io::Files;
use session_plan::Plan;
use std::alloc::Global;
use unread_keys::add_unread_keys;

/// A session, with a line for each key of its file that nothing reads.
#[derive(Drop)]
pub struct KeyedPlan {
    pub plan: Plan,
    pub unread: Vec<u8>,
}

/// The plan that the bytes of a session give, and the keys that nothing reads.
fn keyed_from(alloc: Global, bytes: &[u8]) -> Result<KeyedPlan, Refusal>
    ensures ok { IfOk result (λ s. beside (plan_judged (session_of bytes.now)) (unread_text bytes.now)
        ≡ Ok (plan_view s.plan, s.unread.items)) }
    ensures told { IfOk result (λ s. plan_judged (session_of bytes.now) ≡ Ok (plan_view s.plan)) }
    ensures valid { IfOk result (λ s. IsPlan s.plan) }
    ensures err { IfErr result (RefusesSo
        (λ r. beside (plan_judged (session_of bytes.now)) (unread_text bytes.now) ≡ Err r)) }
{
    let plan = plan_from(alloc, bytes)?;
    let mut unread = Vec::new(alloc);
    add_unread_keys(alloc, bytes, &mut unread)?;
    Ok(KeyedPlan { plan, unread })
}

/// Reads and judges the session, and finds keys that nothing reads.
pub fn read_keyed_session<F: Files>(
    alloc: Global,
    files: &mut F,
    name: &str,
) -> Result<KeyedPlan, Refusal>
    requires files { CanRead F.Files files.old name.now }
    ensures ok { IfOk result (λ s. IsRead (F.entries files.old) (F.readings files.old) (F.readings files.new)
        name.now keyed_file (Ok (plan_view s.plan, s.unread.items))) }
    ensures told { IfOk result
        (λ s. IsJudged (F.entries files.old) name.now (judged session_file) (Ok (plan_view s.plan))) }
    ensures valid { IfOk result (λ s. IsPlan s.plan) }
    ensures err { IfErr result (RefusesFile (F.entries files.old) (F.readings files.old) (F.readings files.new)
        name.now keyed_file (F.faults files.old) (F.faults files.new)) }
    ensures files { KeepsFiles F.Files files.old files.new }
{
    match read_file(alloc, files, name, SESSION_LIMIT) {
        Ok(bytes) => keyed_from(alloc, &bytes),
        Err(error) => Err(read_refusal(error, Input::Session)),
    }
}
