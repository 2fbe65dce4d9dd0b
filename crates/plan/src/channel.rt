// The input channels of a plan.
use arrayvec::ArrayVec;
use cut::Cut;
use event::Level;

// A row of the cut table: the cut of a channel at each level.
pub(crate) type CutRow = ArrayVec<Cut, 8>;

// An input channel of a plan.
#[derive(Default, Drop)]
pub(crate) struct InputChannel {
    pub(crate) level: Level,
    pub(crate) cuts: CutRow,
}
