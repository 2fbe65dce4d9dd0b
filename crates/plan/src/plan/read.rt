// The plan that one begins with, and the plan of a file.
ghost use Rattle.plan.specs.Layout.{OneFile};
ghost use Rattle.plan.specs.Plans.{model, FirstPlan};
ghost use Rattle.plan.specs.Reading.{PlanOf, PlanReplaced};

use crate::channel::{CutRow, InputChannel};
use crate::file::PlanFile;
use crate::plan::Plan;
use arrayvec::ArrayVec;
use cut::Cut;
use event::Refusal;
use order::table::OrderTable;

impl Plan {
    // The plan that one begins with: one level, one channel each way, and a hidden cut. It is no `Default`,
    // which would be a second name for it.
    pub fn new() -> Plan
        ensures { FirstPlan (model result) }
    {
        let mut cuts = CutRow::new();
        cuts.push(Cut::Hidden);
        let mut inputs = ArrayVec::new();
        inputs.push(InputChannel { level: 0, cuts });
        let mut outputs = ArrayVec::new();
        outputs.push(0);
        Plan {
            order: OrderTable::single(),
            inputs,
            outputs,
        }
    }

    // Replaces the plan by the one that the file describes, or refuses by the first question that is
    // answered no and leaves the plan as it was.
    pub fn read(&mut self, file: &[u8]) -> Result<(), Refusal>
        ensures reads { PlanReplaced file.now self.old result self.new }
        ensures onefile { OneFile }
    {
        *self = read_plan(file)?;
        Ok(())
    }
}

// The plan of a file, or the refusal by the first question that is answered no.
fn read_plan(bytes: &[u8]) -> Result<Plan, Refusal>
    ensures { PlanOf bytes.now result }
{
    let file = PlanFile::new(bytes)?;
    let order = file.order()?;
    // the question on levels comes before that on cuts, so all levels are looked at before a channel is made
    if !file.has_lawful_levels() {
        return Err(Refusal::LevelTooHigh);
    }
    let inputs = file.inputs()?;
    let outputs = file.outputs();
    Ok(Plan {
        order,
        inputs,
        outputs,
    })
}
