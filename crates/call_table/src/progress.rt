//! How many requests came, how many calls were taken, and how many are not finished.

ghost use Rattle.std.specs.Prelude.{◌≡◌, ◌+◌, ◌<◌, ◌^◌, [], cond};
ghost use Rattle.call_table.specs.Progress.{ProgressFits};

/// The counts of the records.
#[derive(Clone, Copy)]
pub(crate) struct Progress {
    pub(crate) came: u32,
    pub(crate) taken: u32,
    pub(crate) unfinished: u32,
}

impl Progress {
    pub(crate) fn new() -> Progress
        ensures { ProgressFits [] result }
    {
        Progress {
            came: 0,
            taken: 0,
            unfinished: 0,
        }
    }

    /// A request stands behind the others.
    pub(crate) fn add_request(&mut self)
        requires few { (self.old.came < 2 ^ 31) × (self.old.unfinished < 2 ^ 31) }
        ensures { self.new ≡ record self.old { came = self.old.came + 1; unfinished = self.old.unfinished + 1 } }
    {
        self.came += 1;
        self.unfinished += 1;
    }

    /// A child stands behind the others.
    pub(crate) fn add_child(&mut self)
        requires few { self.old.unfinished < 2 ^ 31 }
        ensures { self.new ≡ record self.old { unfinished = self.old.unfinished + 1 } }
    {
        self.unfinished += 1;
    }

    pub(crate) fn take(&mut self)
        requires few { self.old.taken < 2 ^ 31 }
        ensures { self.new ≡ record self.old { taken = self.old.taken + 1 } }
    {
        self.taken += 1;
    }

    pub(crate) fn finish(&mut self)
        requires some { 0 < self.old.unfinished }
        ensures fewer { self.new.unfinished + 1 ≡ self.old.unfinished }
        ensures rest { self.new ≡ record self.old { unfinished = self.new.unfinished } }
    {
        self.unfinished -= 1;
    }
}
