// What becomes of a record.
ghost use Rattle.std.specs.Prelude.{◌≡◌, ◌<◌};
ghost use Rattle.queue.specs.change.VerdictAs.{verdict_code};

/// What becomes of a record. The first four are a reconciliation's verdicts.
#[derive(Clone, Copy, PartialEq, Eq, Debug)]
pub enum Verdict {
    Stays = 0,
    Confirmed = 1,
    Queued = 2,
    Conflicted = 3,
    Reopened = 4,
    Cancelled = 5,
    Expired = 6,
    Forgotten = 7,
}

// Kept: rows and verdicts lie as numbers in slices of fixed memory, a word for each record, and are made enums where they are read.
impl From<Verdict> for u64 {
    ghost from_gives = { λ verdict n. n ≡ verdict_code verdict };

    fn from(verdict: Verdict) -> u64 {
        verdict as u64
    }
}

impl Verdict {
    /// The verdict with this number.
    pub(crate) fn of_number(n: u64) -> Verdict
        requires { n < 8 }
        ensures { verdict_code result ≡ n }
    {
        match n {
            0 => Verdict::Stays,
            1 => Verdict::Confirmed,
            2 => Verdict::Queued,
            3 => Verdict::Conflicted,
            4 => Verdict::Reopened,
            5 => Verdict::Cancelled,
            6 => Verdict::Expired,
            _ => Verdict::Forgotten,
        }
    }
}
