// THE TALLY SHEET of a session (02, Q-3): what became of the records that we proposed. Each event is a method that changes the sheet where it lies.
#![tactic(auto)]

ghost use Rattle.std.specs.Prelude.{◌≡◌};
ghost use Rattle.sheet.specs.Sheet.{less, count_proposed, count_forwarded, count_declined, count_deferred};

/// unsettled: proposed, and the FS line hasn't come, or accepted and not forwarded yet. proposed is the sum of the other four.
/// What doesn't fit a byte begins again at 0, and goes on from 255 below it.
#[derive(Clone, Copy)]
pub struct Sheet {
    pub proposed: u8,
    pub forwarded: u8,
    pub declined: u8,
    pub deferred: u8,
    pub unsettled: u8,
}

impl Sheet {
    /// n records were proposed.
    pub fn note_proposed(&mut self, n: u8)
        ensures { self.new ≡ count_proposed self.old n }
    {
        self.proposed = self.proposed.wrapping_add(n);
        self.unsettled = self.unsettled.wrapping_add(n);
    }

    /// n records were forwarded.
    pub fn note_forwarded(&mut self, n: u8)
        ensures { self.new ≡ count_forwarded self.old n }
    {
        self.forwarded = self.forwarded.wrapping_add(n);
        self.settle(n);
    }

    /// n records were declined.
    pub fn note_declined(&mut self, n: u8)
        ensures { self.new ≡ count_declined self.old n }
    {
        self.declined = self.declined.wrapping_add(n);
        self.settle(n);
    }

    /// n records were deferred.
    pub fn note_deferred(&mut self, n: u8)
        ensures { self.new ≡ count_deferred self.old n }
    {
        self.deferred = self.deferred.wrapping_add(n);
        self.settle(n);
    }

    /// So many fewer are not settled.
    fn settle(&mut self, n: u8)
        ensures { self.new ≡ record { proposed = self.old.proposed; forwarded = self.old.forwarded; declined = self.old.declined; deferred = self.old.deferred; unsettled = less self.old.unsettled n } }
    {
        self.unsettled = self.unsettled.wrapping_sub(n);
    }
}
