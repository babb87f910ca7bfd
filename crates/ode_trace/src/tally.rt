//! The counts of a run.
ghost use Rattle.std.specs.Prelude.{◌≡◌};
ghost use Rattle.ode_trace.specs.Tallies.{uncounted, was_refused, with_bytes, with_piece, with_refusal, with_settled};

/// What a run came to, in counts. Each stops at the most that 64 bits hold.
#[derive(Clone, Copy, Debug, PartialEq, Eq)]
pub struct Tally {
    /// The pieces that the script was cut into.
    pub pieces: u64,
    /// The transactions that were settled.
    pub settled: u64,
    /// The pieces that were refused.
    pub refused: u64,
    /// The bytes of the text: of what is printed, or in a quiet run of what would be.
    pub bytes: u64,
}

impl Tally {
    /// Nothing is counted yet.
    pub fn new() -> Tally
        ensures { result ≡ uncounted }
    {
        Tally {
            pieces: 0,
            settled: 0,
            refused: 0,
            bytes: 0,
        }
    }

    // One more piece.
    #[tactic(auto, unfolding(crate::specs::Tallies::shown))]
    pub(crate) fn take_piece(&mut self)
        ensures { self.new ≡ with_piece self.old }
    {
        self.pieces = self.pieces.saturating_add(1);
    }

    // So many more settled transactions.
    #[tactic(auto, unfolding(crate::specs::Tallies::shown))]
    pub(crate) fn settle(&mut self, count: u32)
        ensures { self.new ≡ with_settled count self.old }
    {
        self.settled = self.settled.saturating_add(u64::from(count));
    }

    // One more refusal, with this line.
    #[tactic(auto, unfolding(crate::specs::Tallies::shown))]
    pub(crate) fn refuse(&mut self, line: &[u8])
        ensures { self.new ≡ with_refusal line.now self.old }
    {
        self.refused = self.refused.saturating_add(1);
        self.bytes = self.bytes.saturating_add(line.len() as u64);
    }

    // So many more bytes.
    #[tactic(auto, unfolding(crate::specs::Tallies::shown))]
    pub(crate) fn add_bytes(&mut self, count: u64)
        ensures { self.new ≡ with_bytes count self.old }
    {
        self.bytes = self.bytes.saturating_add(count);
    }

    // Whether a piece was refused.
    pub(crate) fn was_refused(&self) -> bool
        ensures { result ≡ was_refused self.now }
    {
        self.refused != 0
    }
}
