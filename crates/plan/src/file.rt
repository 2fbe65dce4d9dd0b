// A plan file whose sizes are known, and what it says of levels and channels.
ghost use Rattle.std.specs.Prelude.{◌≡◌, ℕ, ◌<◌, ◌≤◌, ◌↔◌, IsTrue, MatchResult, map};
ghost use Rattle.std.specs.List.{range_with_len};
ghost use Rattle.event.specs.Questions.{FirstNo};
ghost use Rattle.event.specs.Refusals.{refusal_number};
ghost use Rattle.event.specs.declared.Refusal.TheVariants.{NoPartialOrder, UnlawfulCut};
ghost use Rattle.order.specs.Orders.{PartialOrder};
ghost use Rattle.plan.specs.Codes.{Asked};
ghost use Rattle.plan.specs.Layout.{file_levels, file_inputs, file_outputs, file_below, file_output_level, file_cut_place, cut_in, LawfulIn, LevelsLawful, CutsLawful, plan_questions};
ghost use Rattle.plan.specs.Reading.{Sized, RowSays, TableSays, order_in, OrderOf, file_level, own_level, input_in, RowLawful};

use crate::channel::{CutRow, InputChannel};
use crate::code::CutCode;
use crate::sizes::Sizes;
use arrayvec::ArrayVec;
use bits::read_field;
use cut::Cut;
use event::{Level, Refusal};
use order::table::{OrderTable, Rows};
use std::array;

// A plan file that is as long as its first two bytes say, with the spare and padding bits zero.
#[derive(Clone, Copy)]
pub(crate) struct PlanFile<'a> {
    bytes: &'a [u8],
    sizes: Sizes,
    ghost sized: { Sized bytes.now sizes },
}

impl<'a> PlanFile<'a> {
    // The file of some bytes, or the refusal by the first four questions.
    pub(crate) fn new(bytes: &'a [u8]) -> Result<PlanFile<'a>, Refusal>
        ensures { MatchResult result (λ f. f.bytes.now ≡ bytes.now) (λ e. FirstNo (plan_questions bytes.now) (refusal_number e)) }
    {
        if bytes.len() < 2 {
            return Err(Refusal::PlanTooShort);
        }
        let levels = usize::from(read_field(bytes, 0, 3)) + 1;
        let inputs = usize::from(read_field(bytes, 3, 5)) + 1;
        let outputs = usize::from(read_field(bytes, 8, 5)) + 1;
        if inputs < levels {
            return Err(Refusal::TooFewInputs);
        }
        let sizes = Sizes {
            levels,
            inputs,
            outputs,
        };
        let end = sizes.end();
        if bytes.len() != end.div_ceil(8) {
            return Err(Refusal::WrongPlanLength);
        }
        if read_field(bytes, 13, 3) != 0 || read_field(bytes, end, 8 * bytes.len() - end) != 0 {
            return Err(Refusal::SpareBitSet);
        }
        Ok(PlanFile { bytes, sizes })
    }
}

impl PlanFile<'_> {
    // Whether the file says that level a is below level b; a number that is no level is neither below nor above any.
    #[tactic(auto, unfolding(crate::specs::Reading::order_in))]
    fn below(&self, a: Level, b: Level) -> bool
        ensures { result ≡ order_in self.now.bytes.now a b }
    {
        let levels = self.sizes.levels;
        a < levels && b < levels && read_field(self.bytes, 16 + (a * levels + b), 1) == 1
    }

    // A row of the order's table, which says false beyond the levels.
    fn order_row(&self, a: Level) -> [bool; 8]
        ensures { RowSays self.now.bytes.now a result }
    {
        array::from_fn(|b| self.below(a, b))
    }

    // The order's table.
    fn order_rows(&self) -> Rows
        ensures { TableSays self.now.bytes.now result }
    {
        array::from_fn(
            |a| -> [bool; 8]
                ensures { RowSays self.entry.now.bytes.now a result }
            { self.order_row(a) },
        )
    }

    // The order of the levels, or the refusal where the file gives none.
    pub(crate) fn order(&self) -> Result<OrderTable, Refusal>
        ensures { Asked (PartialOrder (file_levels self.now.bytes.now) (file_below self.now.bytes.now)) (OrderOf self.now.bytes.now) NoPartialOrder result }
    {
        OrderTable::new(self.sizes.levels, self.order_rows()).ok_or(Refusal::NoPartialOrder)
    }

    // The k-th of the levels that the file gives: those of the input channels that are no release channels, and
    // then those of the output channels.
    fn level(&self, k: usize) -> Level
        requires { k < 64 }
        ensures { result ≡ file_level self.now.bytes.now k }
    {
        let at = self.sizes.input_levels_at() + 3 * k;
        usize::from(read_field(self.bytes, at, 3))
    }

    // Whether every level that the file gives a channel is one of its levels.
    pub(crate) fn has_lawful_levels(&self) -> bool
        ensures { IsTrue result ↔ LevelsLawful self.now.bytes.now }
    {
        let given = self.sizes.inputs - self.sizes.levels + self.sizes.outputs;
        (0..given).all(|k| self.level(k) < self.sizes.levels)
    }

    // The level of an input channel: a release channel has its own number, and the file gives the others'.
    fn input_level(&self, channel: usize) -> Level
        requires { channel < 32 }
        ensures { result ≡ own_level self.now.bytes.now channel }
    {
        let levels = self.sizes.levels;
        if channel < levels {
            channel
        } else {
            self.level(channel - levels)
        }
    }

    // The level of an output channel.
    fn output_level(&self, channel: usize) -> Level
        requires { channel < 32 }
        ensures { result ≡ file_output_level self.now.bytes.now channel }
    {
        self.level(self.sizes.inputs - self.sizes.levels + channel)
    }

    // The cut of a channel at a level, or the refusal where its kind does not allow its number.
    fn cut(&self, channel: usize, level: Level) -> Result<Cut, Refusal>
        requires of_channel { channel < self.now.sizes.inputs }
        requires at_level { level < self.now.sizes.levels }
        ensures { Asked (LawfulIn self.now.bytes.now (file_cut_place self.now.bytes.now channel level))
            (λ c. c ≡ cut_in self.now.bytes.now (file_cut_place self.now.bytes.now channel level)) UnlawfulCut result }
    {
        let at = self.sizes.cuts_at() + 18 * (channel * self.sizes.levels + level);
        Cut::try_from(CutCode {
            kind: read_field(self.bytes, at, 2),
            number: read_field(self.bytes, at + 2, 16),
        })
    }

    // An input channel with its row of the cut table, or the refusal where a cut in it is unlawful.
    fn input(&self, channel: usize) -> Result<InputChannel, Refusal>
        requires { channel < self.now.sizes.inputs }
        ensures { Asked (RowLawful self.now.bytes.now channel) (λ i. i ≡ input_in self.now.bytes.now channel) UnlawfulCut result }
    {
        let mut cuts = CutRow::new();
        for level in 0..self.sizes.levels {
            cuts.push(self.cut(channel, level)?);
        }
        let level = self.input_level(channel);
        Ok(InputChannel { level, cuts })
    }

    // The input channels, or the refusal where a cut is unlawful. This is a loop, as is the row above: no
    // collecting into a `Result` says when it fails.
    pub(crate) fn inputs(&self) -> Result<ArrayVec<InputChannel, 32>, Refusal>
        ensures { Asked (CutsLawful self.now.bytes.now) (λ v. v.items ≡ map (input_in self.now.bytes.now) (range_with_len 0 (file_inputs self.now.bytes.now))) UnlawfulCut result }
    {
        let mut inputs = ArrayVec::new();
        for channel in 0..self.sizes.inputs {
            inputs.push(self.input(channel)?);
        }
        Ok(inputs)
    }

    // The levels of the output channels. This is a loop, since collecting takes an allocator.
    pub(crate) fn outputs(&self) -> ArrayVec<Level, 32>
        ensures { result.items ≡ map (file_output_level self.now.bytes.now) (range_with_len 0 (file_outputs self.now.bytes.now)) }
    {
        let mut outputs = ArrayVec::new();
        for channel in 0..self.sizes.outputs {
            outputs.push(self.output_level(channel));
        }
        outputs
    }
}
