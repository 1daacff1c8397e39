//! Sponsors of choices.
ghost use Rattle.std.specs.Prelude.{◌≡◌};
ghost use Rattle.gr_core.specs.Parts.Sponsor.{is_active};

/// Whether a developer who sponsored a choice still does.
#[derive(Clone, Copy, Debug, PartialEq, Eq)]
pub enum Sponsorship {
    /// Counts among the sponsors of the choice (Constitution, 4.2.1).
    Active,

    /// Was withdrawn since (Constitution, A.2.2), or ended when the sponsor became the proposer.
    Withdrawn,
}

impl Sponsorship {
    /// Whether it counts among the sponsors of its choice.
    pub fn is_active(self) -> bool
        ensures { result ≡ is_active self }
    {
        matches!(self, Sponsorship::Active)
    }
}
