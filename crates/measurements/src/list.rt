// Lists of measurements, as four parallel slices: entry i of each belongs to measurement i. The lengths may differ.
ghost use Rattle.std.specs.Prelude.{◌≡◌, ◌<◌};

// One measurement: the variable, what its quantity is known to lie between, and the threshold that this is held against.
#[derive(Clone, Copy)]
pub struct Measurement {
    pub variable: u32,
    pub low: i32,
    pub high: i32,
    pub threshold: i32,
}

// A list of measurements.
#[derive(Clone, Copy)]
pub struct MeasurementList<'a> {
    pub variables: &'a [u32],
    pub lows: &'a [i32],
    pub highs: &'a [i32],
    pub thresholds: &'a [i32],
}

impl<'a> MeasurementList<'a> {
    ghost use Rattle.measurements.specs.List.{nth, measurements_in};
    ghost use Rattle.measurements.specs.Measurement.{complete, entries};

    // How many measurements are complete: have an entry in each slice.
    pub fn complete(self) -> usize
        ensures { result ≡ complete (measurements_in self.entry) }
    {
        self.variables
            .len()
            .min(self.lows.len())
            .min(self.highs.len())
            .min(self.thresholds.len())
    }

    // How many have an entry in some slice.
    pub fn entries(self) -> usize
        ensures { result ≡ entries (measurements_in self.entry) }
    {
        self.variables
            .len()
            .max(self.lows.len())
            .max(self.highs.len())
            .max(self.thresholds.len())
    }

    // Measurement i, a complete one.
    pub fn at(self, i: usize) -> Measurement
        requires { i < complete (measurements_in self) }
        ensures { result ≡ nth self.entry i }
    {
        Measurement {
            variable: self.variables[i],
            low: self.lows[i],
            high: self.highs[i],
            threshold: self.thresholds[i],
        }
    }
}
