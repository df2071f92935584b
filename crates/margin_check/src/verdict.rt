// Verdicts on certificates.
ghost use Rattle.std.specs.Prelude.{◌≡◌};
ghost use Rattle.margin_check.specs.Verdicts.{reason_name, reason_number};

/// Why a certificate isn't valid: the first part that fails, in this order.
#[derive(Clone, Copy, Debug, PartialEq, Eq)]
pub enum Reason {
    /// It isn't of this number of candidates and of ballots.
    HeadDiffers,
    /// Another outcome is reported.
    ReportedDiffers,
    /// Its replacements are no alteration of the ballots.
    BadAlteration,
    /// Its goal isn't complete, or doesn't hold after the replacements.
    ClaimFails,
    /// A node of its tree has another shape than its goal asks for.
    ShapeDiffers,
    /// A cut of its tree fails the test.
    CutFails,
    /// Its lower bound isn't below the upper one.
    NumbersDisagree,
}

impl Reason {
    /// The number of the reason.
    pub fn number(self) -> u8
        ensures { result ≡ reason_number self }
    {
        match self {
            Reason::HeadDiffers => 1,
            Reason::ReportedDiffers => 2,
            Reason::BadAlteration => 3,
            Reason::ClaimFails => 4,
            Reason::ShapeDiffers => 5,
            Reason::CutFails => 6,
            Reason::NumbersDisagree => 7,
        }
    }

    /// The name of the reason.
    pub fn name(self) -> &'static str
        ensures { result.now ≡ reason_name self }
    {
        match self {
            Reason::HeadDiffers => "HeadDiffers",
            Reason::ReportedDiffers => "ReportedDiffers",
            Reason::BadAlteration => "BadAlteration",
            Reason::ClaimFails => "ClaimFails",
            Reason::ShapeDiffers => "ShapeDiffers",
            Reason::CutFails => "CutFails",
            Reason::NumbersDisagree => "NumbersDisagree",
        }
    }
}

/// What is said of a certificate.
#[derive(Clone, Copy, Debug, PartialEq, Eq)]
pub enum Verdict {
    /// It is valid for the contest.
    Valid,
    /// It isn't.
    No {
        /// The first part that fails.
        reason: Reason,
        /// The number of the line at which it fails, from 1.
        line: u32,
    },
}
