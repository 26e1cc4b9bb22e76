//! How often which answer came.
use faults::Fault;
use std::fmt;

/// How many volumes were accepted and declined, how often each refusal came, and how often the check and what was
/// taken up disagreed.
#[derive(Clone, Copy, Default)]
pub struct Tally {
    accepted: u64,
    declined: u64,
    refusals: [u64; 10],
    pub disagreements: u64,
}

impl Tally {
    pub fn add(&mut self, answer: Result<usize, Fault>, agreed: bool) {
        match answer {
            Ok(_) => self.accepted = self.accepted.wrapping_add(1),
            Err(fault) => self.add_fault(fault),
        }
        if !agreed {
            self.disagreements = self.disagreements.wrapping_add(1);
        }
    }

    fn add_fault(&mut self, fault: Fault) {
        self.declined = self.declined.wrapping_add(1);
        let index = (fault.number() as usize).wrapping_sub(1);
        if let Some(times) = self.refusals.get_mut(index) {
            *times = times.wrapping_add(1);
        }
    }
}

/// The counts, and how often each of the ten refusals came, in the order of their numbers.
impl fmt::Display for Tally {
    fn fmt<W: fmt::Write>(&self, f: &mut fmt::Formatter<W>) -> fmt::Result {
        let accepted = self.accepted;
        let declined = self.declined;
        write!(
            f,
            "accepted {accepted}, declined {declined}, refusals 1 to 10:"
        )?;
        for times in self.refusals {
            write!(f, " {times}")?;
        }
        Ok(())
    }
}
