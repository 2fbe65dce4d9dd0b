// The sizes of a plan, and where the parts of its file begin.
ghost use Rattle.std.specs.Prelude.{◌≡◌, ◌≤◌};
ghost use Rattle.plan.specs.Layout.{input_levels_at, output_levels_at, cuts_at, end_at};

// How many levels, input channels and output channels a plan has.
#[derive(Clone, Copy)]
pub(crate) struct Sizes {
    pub levels: usize,
    pub inputs: usize,
    pub outputs: usize,
    ghost some_level: { 1 ≤ levels },
    ghost few_levels: { levels ≤ 8 },
    ghost released: { levels ≤ inputs },
    ghost few_inputs: { inputs ≤ 32 },
    ghost some_output: { 1 ≤ outputs },
    ghost few_outputs: { outputs ≤ 32 },
}

impl Sizes {
    // The bit at which the levels of the input channels begin.
    pub fn input_levels_at(self) -> usize
        ensures is { result ≡ input_levels_at self.levels }
        ensures few { result ≤ 80 }
    {
        16 + self.levels * self.levels
    }

    // The bit at which the levels of the output channels begin.
    pub fn output_levels_at(self) -> usize
        ensures is { result ≡ output_levels_at self.levels self.inputs }
        ensures few { result ≤ 176 }
    {
        self.input_levels_at() + 3 * (self.inputs - self.levels)
    }

    // The bit at which the cuts begin.
    pub fn cuts_at(self) -> usize
        ensures is { result ≡ cuts_at self.levels self.inputs self.outputs }
        ensures few { result ≤ 272 }
    {
        self.output_levels_at() + 3 * self.outputs
    }

    // The bit after the last cut.
    pub fn end(self) -> usize
        ensures is { result ≡ end_at self.levels self.inputs self.outputs }
        ensures few { result ≤ 4880 }
    {
        self.cuts_at() + 18 * (self.inputs * self.levels)
    }
}
