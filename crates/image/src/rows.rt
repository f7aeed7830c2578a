// 13: the rows that judge a number of the header, and those that go over the axes.
#![tactic(auto, using(answer::proofs::Loops::begin), unfolding(checks::specs::Numbers::field_fault, checks::specs::Numbers::short_fault, checks::specs::Numbers::stated_fault, crate::specs::Head::count_row, crate::specs::Head::offset_row))]

ghost use Rattle.std.specs.Prelude.{◌≡◌, ◌-◌, ◌≤◌};
ghost use Rattle.answer.specs.Rows.{said};
ghost use Rattle.answer.specs.Faults.{first_fault};
ghost use Rattle.checks.specs.Numbers.{field_fault, short_fault, stated_fault};
ghost use Rattle.image.specs.Fields.{axes_field};
ghost use Rattle.image.specs.Head.{count_row, offset_row};

use crate::fields;
use answer::{Refusal, Row};
use checks::counts;

// 13: a field that is not what it must be.
pub(crate) fn field_fault(place: usize, wanted: usize, x: usize) -> Result<(), Refusal>
    ensures { said result ≡ field_fault place wanted x }
{
    Row::Header.refuse_if(x != wanted, 0, place)
}

// 13: fewer bytes than a header has.
pub(crate) fn short_fault(len: usize) -> Result<(), Refusal>
    ensures { said result ≡ short_fault len }
{
    Row::Header.refuse_if(len < crate::HEADER, 0, 0)
}

// 13: a stated length that is not the image's, or that no image has.
pub(crate) fn stated_fault(stated: usize, len: usize) -> Result<(), Refusal>
    ensures { said result ≡ stated_fault stated len }
{
    let wrong = stated != len || stated < crate::HEADER || stated > crate::MOST_BYTES;
    Row::Header.refuse_if(wrong, 0, 4)
}

// 2 of a count that is used, 13 of one that is not.
fn count_row(img: &[u8], a: usize) -> Result<(), Refusal>
    requires { a ≤ 4 }
    ensures { said result ≡ count_row img.now a }
{
    let count = fields::count_of(img, a);
    if a < fields::axes_of(img) {
        counts::count_fault(a, count)
    } else {
        field_fault(8 + 2 * a, 0, count)
    }
}

// The same of all four.
pub(crate) fn counts_fault(img: &[u8]) -> Result<(), Refusal>
    ensures { said result ≡ first_fault (count_row img.now) 0 4 }
{
    for a in 0..4 {
        count_row(img, a)?;
    }
    Ok(())
}

// 13 of the offsets that are not used.
pub(crate) fn offsets_fault(img: &[u8]) -> Result<(), Refusal>
    ensures { said result ≡ first_fault (offset_row img.now) (axes_field img.now) (4 - axes_field img.now) }
{
    for a in fields::axes_of(img)..4 {
        field_fault(16 + 4 * a, 0, fields::offset_of(img, a))?;
    }
    Ok(())
}
