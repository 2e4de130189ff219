// The record of a segment as a struct, lent to the two functions that change it.
#![tactic(auto)]

ghost use Rattle.std.specs.Prelude.{◌≡◌, ◌+◌, ◌<◌, ◌^◌};
ghost use Rattle.segment_record.specs.Ring.{more, one_fewer};

// The place of the first value in the ring, the number of values, the segment linked behind this one.
#[derive(Clone, Copy)]
pub struct Record {
    pub first: u32,
    pub count: u32,
    pub next: u32,
}

impl Record {
    // A run of k values more: the count is raised in the segment's own record.
    fn store_some(&mut self, k: u32)
        requires { self.old.count + k < 2 ^ 32 }
        ensures { self.new ≡ more self.old k }
    {
        self.count += k;
    }

    // The first value is gone: the one at place p is the first now.
    fn drop_one(&mut self, p: u32)
        requires { 0 < self.old.count }
        ensures { self.new ≡ one_fewer self.old p }
    {
        self.first = p;
        self.count -= 1;
    }

    // For callers, whose proofs then need no walk.
    pub fn with_more(mut self, k: u32) -> Record
        requires { self.count + k < 2 ^ 32 }
        ensures { result ≡ more self k }
    {
        self.store_some(k);
        self
    }

    pub fn with_one_less(mut self, p: u32) -> Record
        requires { 0 < self.count }
        ensures { result ≡ one_fewer self p }
    {
        self.drop_one(p);
        self
    }
}
