// Calls that are counted, and fail at the numbers that they were given.
ghost use Rattle.std.specs.Prelude.{◌≡◌, ◌≤◌};
ghost use Rattle.ess_io.specs.Counts.{last_count, raised};
ghost use Rattle.ess_io.specs.Calls.{is_next_listed};

// Which calls are to fail, and how many calls with a number were made.
#[derive(Drop)]
pub(crate) struct Calls {
    pub(crate) fails: Vec<u64>,
    pub(crate) made: u64,
}

impl Calls {
    pub(crate) fn new(fails: Vec<u64>) -> Calls
        ensures { result ≡ record { fails = fails; made = 0 } }
    {
        Calls { fails, made: 0 }
    }

    // Counts a call, and answers whether it is to fail.
    pub(crate) fn next(&mut self) -> bool
        ensures listed { result ≡ is_next_listed self.old.fails.items self.old.made }
        ensures in_range { self.old.made ≤ last_count }
        ensures counted { self.new ≡ record self.old { made = raised self.old.made } }
    {
        if self.made == u64::MAX {
            return false;
        }
        self.made += 1;
        self.fails.contains(&self.made)
    }
}
