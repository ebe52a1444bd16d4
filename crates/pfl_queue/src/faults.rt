//! Why something was not queued: its number, its text and the refusal of its event.
ghost use Rattle.std.specs.Prelude.{◌≡◌, Some};

use crate::QueueFault;
use pfl_base::Refusal;
use std::error::Error;
use std::fmt;

impl QueueFault {
    ghost use Rattle.pfl_queue.specs.Faults.{fault_number};

    /// The fault's number, from 1 to 2.
    pub fn number(self) -> u8
        ensures number { result ≡ fault_number self }
    {
        self as u8
    }
}

impl From<QueueFault> for Refusal {
    ghost use Rattle.pfl_queue.specs.Faults.{refusal_of};

    fn from(fault: QueueFault) -> Refusal
        ensures refusal { result ≡ refusal_of fault }
    {
        match fault {
            QueueFault::QueueFull => Refusal::QueueFull,
            QueueFault::CountFull => Refusal::CountFull,
        }
    }
}

impl fmt::Display for QueueFault {
    ghost use Rattle.pfl_base.specs.Texts.{refusal_text};
    ghost use Rattle.pfl_queue.specs.Faults.{refusal_of};

    ghost output = { λ fault. Some (refusal_text (refusal_of fault)) };

    fn fmt<W: fmt::Write>(&self, f: &mut fmt::Formatter<W>) -> fmt::Result {
        f.write_str(Refusal::from(*self).word())
    }
}

impl Error for QueueFault {}
