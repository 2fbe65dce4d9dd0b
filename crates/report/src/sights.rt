// The whole report on a plan file and a script.
ghost use Rattle.std.specs.Prelude.{◌≡◌, string_bytes, MatchResult, IfOk};
ghost use Rattle.event.specs.declared.Refusal.TheVariants.{OutOfMemory};
ghost use Rattle.plan.specs.Plans.{model};
ghost use Rattle.report.specs.Reports.{CountsLaw};
ghost use Rattle.report.specs.Runs.{answers_text, ScriptReport, ReportOf};

use crate::answers::events_of;
use crate::level::PlanView;
use crate::refused::{RefusalLine, RefusedLines};
use event::Refusal;
use plan::plan::Plan;
use script::command::Command;
use script::lines::read_script;
use std::alloc::{AllocError, Global};

// The text that the program prints, from the bytes of the plan file and of the script. Want of memory, its one
// failure, comes as a refusal, since a refusal of a public call has a number.
#[tactic(auto, using(crate::proofs::Counting::counts_law, crate::proofs::Outcomes::report_refused))]
pub fn sights_report(heap: Global, plan_file: &[u8], script: &[u8]) -> Result<String, Refusal>
    ensures report { MatchResult result (λ s. ReportOf plan_file.now script.now (string_bytes s)) (λ e. e ≡ OutOfMemory) }
    ensures counts { CountsLaw }
{
    let mut plan = Plan::new();
    match plan.read(plan_file) {
        Ok(()) => script_report(heap, &plan, script),
        Err(refusal) => Ok(RefusalLine(refusal).to_string(heap)?),
    }
}

// The text for a script under a plan. Want of memory is no line of it: `read_script` answers it as a refusal,
// which is handed on as it came.
fn script_report(heap: Global, plan: &Plan, script: &[u8]) -> Result<String, Refusal>
    ensures { MatchResult result (λ s. ScriptReport (model plan.now) script.now (string_bytes s)) (λ e. e ≡ OutOfMemory) }
{
    match read_script(heap, script) {
        Ok(answers) => Ok(answers_text(heap, plan, &answers)?),
        Err(Refusal::OutOfMemory) => Err(Refusal::OutOfMemory),
        Err(too_long) => Ok(RefusalLine(too_long).to_string(heap)?),
    }
}

// The text for the answers to the lines of a script.
fn answers_text(
    heap: Global,
    plan: &Plan,
    answers: &[Result<Command, Refusal>],
) -> Result<String, AllocError>
    ensures { IfOk result (λ s. string_bytes s ≡ answers_text (model plan.now) answers.now) }
{
    let events = events_of(heap, answers)?;
    let refused = RefusedLines(answers);
    let sights = PlanView {
        plan,
        events: &events,
    };
    format!(in heap; "{refused}{sights}")
}
