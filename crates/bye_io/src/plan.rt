ghost use Rattle.std.specs.Prelude.{◌≡◌, ◌≤◌, ◌↔◌, IsTrue, if◌then◌else◌};

/// Which calls of an object in memory are to fail, how many bytes one takes at most, and how many
/// calls and faults there were.
#[derive(Drop)]
pub struct Plan {
    pub fails: Vec<u64>,
    pub most: u64,
    pub calls: u64,
    pub faults: u64,
    ghost some: { 1 ≤ most },
}

impl Plan {
    ghost use Rattle.bye_io.specs.Counts.{raised};
    ghost use Rattle.bye_io.specs.Plan.{CountsCall, IsNewPlan, IsToFail};

    pub fn new(fails: Vec<u64>, most: u64) -> Self
        requires { 1 ≤ most }
        ensures { IsNewPlan result fails.items most }
    {
        Plan {
            fails,
            most,
            calls: 0,
            faults: 0,
        }
    }

    /// Counts a call, and tells whether it is to fail. One that is to fail is a fault.
    pub fn fails_now(&mut self) -> bool
        ensures planned { IsTrue result ↔ IsToFail self.old }
        ensures counted { CountsCall self.old self.new }
        ensures faults { self.new.faults ≡ (if result then raised self.old.faults else self.old.faults) }
        ensures later { self.old.faults ≤ self.new.faults }
    {
        self.calls = self.calls.saturating_add(1);
        let fails = self.fails.contains(&self.calls);
        if fails {
            self.raise();
        }
        fails
    }

    /// Counts a fault.
    pub fn raise(&mut self)
        ensures faults { self.new.faults ≡ raised self.old.faults }
        ensures later { self.old.faults ≤ self.new.faults }
        ensures fails { self.new.fails ≡ self.old.fails }
        ensures most { self.new.most ≡ self.old.most }
        ensures calls { self.new.calls ≡ self.old.calls }
    {
        self.faults = self.faults.saturating_add(1);
    }
}
