//! Whether a line may follow those that were taken.
ghost use Rattle.std.specs.Prelude.{◌≡◌, ◌<◌, ℕ, true, false};
ghost use Rattle.ea_model.specs.declared.units.TheConstants.{MAX_OPS};
ghost use Rattle.ea_super.specs.Knows.{HasRoom, IsBegun, Knows};
ghost use Rattle.ea_super.specs.Language.{is_bad_scheduler, is_many, is_not_held, is_reused};
ghost use Rattle.ea_super.specs.Language.{Earlier, may_stand};

use crate::lines::Line;
use crate::seen::Seen;
use crate::stages::Stage;
use ea_model::MAX_OPS;
use ea_segments::Request;

impl Seen {
    /// Whether a line may stand here.
    pub fn admits(&self, line: Line) -> bool
        ensures exact { result ≡ may_stand self.now.stage self.now.section line }
        ensures begun { result ≡ true → IsBegun self.now.section line }
    {
        match (self.stage, line) {
            (_, Line::Skipped) => true,
            (Stage::Start, Line::Super) => true,
            (Stage::Opening, Line::Section { .. } | Line::End) => true,
            (Stage::Opening, Line::Asks { .. }) => self.section > 0,
            _ => false,
        }
    }

    /// Whether a line begins a section that isn't due, or ends the sections before the last one.
    pub fn is_bad(&self, line: Line) -> bool
        ensures { result ≡ is_bad_scheduler self.now.schedulers self.now.section line }
    {
        match line {
            Line::Section { number } => {
                self.section >= self.schedulers || number != self.section + 1
            }
            Line::End => self.section < self.schedulers,
            _ => false,
        }
    }

    /// Whether with this line the requests are too many.
    pub fn is_full(&self, line: Line) -> bool
        ensures many { (n : ℕ) (earlier : Earlier) → Knows n earlier self.now
            → result ≡ is_many earlier line }
        ensures room { result ≡ false → HasRoom self.now line }
    {
        match line {
            Line::Asks { .. } => self.count >= MAX_OPS,
            _ => false,
        }
    }

    /// Whether a line takes under a name again.
    pub fn reuses(&self, line: Line) -> bool
        ensures { (n : ℕ) (earlier : Earlier) → Knows n earlier self.now
            → result ≡ is_reused earlier line }
    {
        match line {
            Line::Asks {
                request: Request::Take { name, .. },
            } => self.takers.section_of(name) > 0,
            _ => false,
        }
    }

    /// Whether a line gives a name back that its section didn't take.
    pub fn lacks(&self, line: Line) -> bool
        requires { IsBegun self.now.section line }
        ensures { (n : ℕ) (earlier : Earlier) → Knows n earlier self.now
            → result ≡ is_not_held earlier line }
    {
        match line {
            Line::Asks {
                request: Request::Back { name },
            } => self.takers.section_of(name) != self.section,
            _ => false,
        }
    }
}
