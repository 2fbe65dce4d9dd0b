// Cuts as a plan file writes them.
ghost use Rattle.plan.specs.Codes.{Decodes};

use cut::Cut;
use event::Refusal;

// A cut as a plan file writes it: its kind (0 hidden, 1 bare, 2 mask, 3 step) and a number.
#[derive(Clone, Copy)]
pub(crate) struct CutCode {
    pub(crate) kind: u16,
    pub(crate) number: u16,
}

impl TryFrom<CutCode> for Cut {
    type Error = Refusal;

    ghost try_from_gives = { Decodes };

    fn try_from(code: CutCode) -> Result<Cut, Refusal> {
        match (code.kind, code.number) {
            (0, 0) => Ok(Cut::Hidden),
            (1, 0) => Ok(Cut::Bare),
            (2, mask) => Ok(Cut::Mask(mask)),
            (3, step) if step > 0 => Ok(Cut::Step(step)),
            _ => Err(Refusal::UnlawfulCut),
        }
    }
}
