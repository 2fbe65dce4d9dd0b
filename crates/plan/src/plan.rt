// A plan and its parts.
ghost use Rattle.order.specs.OrderTables.{level_count};
ghost use Rattle.plan.specs.Channels.{LawfulInputs, LawfulOutputs};

use crate::channel::InputChannel;
use arrayvec::ArrayVec;
use event::Level;
use order::table::OrderTable;

mod look;
mod read;

// A plan: what may flow where. It has 1 to 8 levels with their order, up to 32 input channels and up
// to 32 output channels with a level each, and a cut for each input channel at each level. No plan
// exists without the properties that its ghost fields state. It has no `impl Model`: its value would be
// `PlanModel`, and a value with functions is refused (tried: unsupported-contract-type).
#[derive(Drop)]
pub struct Plan {
    order: OrderTable,
    // channel r below the number of levels is the release channel of level r
    inputs: ArrayVec<InputChannel, 32>,
    // the level of each output channel
    outputs: ArrayVec<Level, 32>,
    ghost lawful_inputs: { LawfulInputs (level_count order) inputs.items },
    ghost lawful_outputs: { LawfulOutputs (level_count order) outputs.items },
}
