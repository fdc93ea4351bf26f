// Entering a formula line.
ghost use Rattle.std.specs.Prelude.{◌≡◌, length};
ghost use Rattle.flow.specs.Held.{asked_of, line_of};
ghost use Rattle.flow.specs.Sheet.{entered, entry as outcome, numbered};

use crate::case::Case;
use crate::line::Line;
use crate::refusal::Refusal;

impl Case {
    // The line that a character and numbers ask for here, or the earliest refusal.
    #[tactic(auto, unfolding(crate::specs::Sheet::entry))]
    fn entry(&self, character: char, numbers: &[u32]) -> Result<Line, Refusal>
        ensures { asked_of line_of result ≡ outcome self.now.lines character numbers.now }
    {
        let line = Line::worded(character, numbers)?;
        if !line.sits_after(self.lines.len() as u32) {
            return Err(Refusal::BadOperand);
        }
        if self.lines.is_full() {
            return Err(Refusal::TableFull);
        }
        Ok(line)
    }

    /// Enters a formula line and answers its number, from 0. Refused where the character is no operator, where the
    /// numbers are too few or too many or one of them is too large or names no earlier line, or where the sheet is
    /// full.
    #[tactic(auto, using(crate::proofs::Entering::entering))]
    pub fn line(&mut self, character: char, numbers: &[u32]) -> Result<u32, Refusal>
        ensures answers { let ls = self.old.lines in
            result ≡ numbered (length ls) (outcome ls character numbers.now) }
        ensures leaves { let ls = self.old.lines in
            self.new.lines ≡ entered ls (outcome ls character numbers.now) }
        ensures stays { self.new.graph ≡ self.old.graph }
    {
        let line = self.entry(character, numbers)?;
        let number = self.lines.len() as u32;
        self.lines.push(line);
        Ok(number)
    }
}
