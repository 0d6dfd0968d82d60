ghost use Rattle.std.specs.Prelude.{◌≡◌};
ghost use Rattle.cv_store.specs.Turns.{no_turns, one_more, after_begin, after_read, after_commit, after_tail, after_look, after_keep};

/// How many atomic steps of each kind were taken. Each count stands still at the greatest number.
#[derive(Clone, Copy, Debug, PartialEq, Eq)]
pub struct Turns {
    pub begins: u64,
    pub reads: u64,
    pub commits: u64,
    pub tails: u64,
    pub looks: u64,
    pub keeps: u64,
}

impl Turns {
    pub fn none() -> Turns
        ensures { result ≡ no_turns }
    {
        Turns {
            begins: 0,
            reads: 0,
            commits: 0,
            tails: 0,
            looks: 0,
            keeps: 0,
        }
    }

    pub fn count_begin(&mut self)
        ensures { self.new ≡ after_begin self.old }
    {
        self.begins = one_more(self.begins);
    }

    pub fn count_read(&mut self)
        ensures { self.new ≡ after_read self.old }
    {
        self.reads = one_more(self.reads);
    }

    pub fn count_commit(&mut self)
        ensures { self.new ≡ after_commit self.old }
    {
        self.commits = one_more(self.commits);
    }

    pub fn count_tail(&mut self)
        ensures { self.new ≡ after_tail self.old }
    {
        self.tails = one_more(self.tails);
    }

    pub fn count_look(&mut self)
        ensures { self.new ≡ after_look self.old }
    {
        self.looks = one_more(self.looks);
    }

    pub fn count_keep(&mut self)
        ensures { self.new ≡ after_keep self.old }
    {
        self.keeps = one_more(self.keeps);
    }
}

// The next number, where there is one.
fn one_more(count: u64) -> u64
    ensures { result ≡ one_more count }
{
    if count < u64::MAX { count + 1 } else { count }
}
