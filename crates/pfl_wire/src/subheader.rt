//! The subheaders of groups, read from the front of bytes.

ghost use Rattle.std.specs.Prelude.{◌≡◌};
ghost use Rattle.pfl_wire.specs.Reading.{is_counted, subheader_at};
ghost use Rattle.pfl_wire.specs.inner.Answers.{Gives};

use crate::action::Action;
use crate::fault::BadFrame;
use crate::read_fields::{read_byte, read_u16};

/// What the records of a group are for, and how many there are.
#[derive(Clone, Copy)]
pub struct Subheader {
    pub action: Action,
    pub count: u16,
}

/// Whether the count is not 0, and the bytes hold the records that it counts.
fn has_records(action: Action, count: u16, rest: &[u8]) -> bool
    ensures { result ≡ is_counted action count rest.now }
{
    0 < count && usize::from(count) * action.record_len() <= rest.len()
}

/// The subheader of a group, 4 bytes; the records that it counts are there.
#[tactic(auto, unfolding(crate::specs::Reading::subheader_at))]
pub fn read_subheader(bytes: &[u8]) -> Result<(Subheader, &[u8]), BadFrame>
    ensures { Gives (λ x. (x.0, x.1.now)) result (subheader_at bytes.now) }
{
    if bytes.len() < 4 {
        return Err(BadFrame::Length);
    }
    let (number, rest) = read_byte(bytes)?;
    let action = Action::of_number(number).ok_or(BadFrame::Action)?;
    let (pad, rest) = read_byte(rest)?;
    let (count, rest) = read_u16(rest)?;
    if !has_records(action, count, rest) {
        return Err(BadFrame::Count);
    }
    if pad != 0 {
        return Err(BadFrame::Value);
    }
    Ok((Subheader { action, count }, rest))
}
