// Cuts, which say what a level is shown of a channel that it may not see whole.
#![tactic(auto)]

ghost use Rattle.std.specs.Prelude.{◌≡◌, ◌-◌, ◌%◌};
ghost use Rattle.event.specs.Figures.{AllComeOut};
ghost use Rattle.cut.specs.declared.Cut.TheVariants.{Hidden};
ghost use Rattle.cut.specs.Cuts.{cut_value, CutLaw, cut_figures};

// A cut: what is left of a value for a level that may not see the channel whole.
#[derive(Clone, Copy, Debug, PartialEq, Eq)]
pub enum Cut {
    // nothing, not even that there was an event
    Hidden,
    // that there was an event: value 0
    Bare,
    // the bits of the mask
    Mask(u16),
    // the multiple of the step at or below the value
    Step(u16),
}

// Written out and not derived, so that a clause names the cut that it gives.
impl Default for Cut {
    ghost is_default = { λ c. c ≡ Hidden };

    fn default() -> Cut {
        Self::Hidden
    }
}

impl Cut {
    // What the cut leaves of a value. A step of 0, which no plan has, leaves 0.
    #[tactic(auto, using(crate::proofs::Cutting::cut_law))]
    pub fn apply(self, value: u16) -> Option<u16>
        ensures is { result ≡ cut_value self value }
        ensures law { CutLaw }
        ensures figures { AllComeOut cut_figures }
    {
        match self {
            Cut::Hidden => None,
            Cut::Bare => Some(0),
            Cut::Mask(mask) => Some(value & mask),
            Cut::Step(step) => Some(step_down(step, value)),
        }
    }
}

// The multiple of the step at or below the value.
fn step_down(step: u16, value: u16) -> u16
    ensures { result ≡ value - value % step }
{
    value.checked_rem(step).map_or(0, |rest| value - rest)
}
