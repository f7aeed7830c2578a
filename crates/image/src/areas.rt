// Where the areas lie: read from the header once, then 14 of each alone and 18 of each two.
#![tactic(auto, using(answer::proofs::Loops::begin, crate::proofs::Floats::values_few), unfolding(checks::specs::Numbers::area_fault, checks::specs::Numbers::shared_fault, checks::specs::Numbers::sharing, crate::specs::Fields::area_of))]

ghost use Rattle.std.specs.Prelude.{◌≡◌, ◌+◌, ◌-◌, ◌*◌, ◌<◌, ◌≤◌, length};
ghost use Rattle.answer.specs.Rows.{said};
ghost use Rattle.answer.specs.Faults.{first_fault};
ghost use Rattle.checks.specs.Numbers.{area_fault, shared_fault};
ghost use Rattle.image.specs.Scaffolding.{Held, Bounded, AreaIn, Areas, AllBounded, alone_row, shared_row, later_row};

use crate::fields;
use answer::{Refusal, Row};
use checks::shapes::Holding;
use std::array;

// An area: where it begins, and how many floats it has.
#[derive(Clone, Copy)]
pub(crate) struct Area {
    pub(crate) at: usize,
    pub(crate) floats: usize,
}

impl Area {
    // Where it ends.
    fn end(self) -> usize
        requires { Bounded self }
        ensures { result ≡ self.at + 8 * self.floats }
    {
        self.at + 8 * self.floats
    }
}

// The area of a number: an axis's, or, from the number of axes on, the values'.
fn area_of(img: &[u8], held: Holding, k: usize) -> Area
    requires held { Held img.now held }
    requires number { k ≤ 4 }
    ensures { AreaIn img.now k result }
{
    if k < fields::axes_of(img) {
        Area {
            at: fields::offset_of(img, k),
            floats: fields::count_of(img, k),
        }
    } else {
        Area {
            at: fields::values_at(img),
            floats: held.values,
        }
    }
}

// The areas of an image by their numbers: the axes', then the values'.
pub(crate) fn areas_of(img: &[u8], held: Holding) -> [Area; 5]
    requires { Held img.now held }
    ensures { Areas img.now result }
{
    array::from_fn(|k| area_of(img, held, k))
}

// 14: an area that starts in the header or off a multiple of 8, or ends outside.
fn area_fault(len: usize, axis: usize, area: Area) -> Result<(), Refusal>
    requires { Bounded area }
    ensures { said result ≡ area_fault len axis area.at area.floats }
{
    let wrong = area.at < crate::HEADER || area.at % 8 != 0 || area.end() > len;
    Row::Area.refuse_if(wrong, axis, 0)
}

// 18: two areas of which the later begins before the first of their ends.
fn shared_fault(i: usize, one: Area, j: usize, other: Area) -> Result<(), Refusal>
    requires first { Bounded one }
    requires second { Bounded other }
    ensures { said result ≡ shared_fault i j one.at (8 * one.floats) other.at (8 * other.floats) }
{
    let from = one.at.max(other.at);
    let end = one.end().min(other.end());
    Row::Overlap.refuse_if(from < end, i, j)
}

// 14: each area alone.
pub(crate) fn areas_fault(len: usize, areas: &[Area]) -> Result<(), Refusal>
    requires { AllBounded areas.now }
    ensures { said result ≡ first_fault (alone_row len areas.now) 0 (length areas.now) }
{
    for (k, area) in areas.iter().enumerate() {
        area_fault(len, k, *area)?;
    }
    Ok(())
}

// 18 of an area with each that comes after it.
fn later_fault(areas: &[Area], i: usize) -> Result<(), Refusal>
    requires bounded { AllBounded areas.now }
    requires there { i < length areas.now }
    ensures { said result ≡ later_row areas.now i }
{
    for j in i + 1..areas.len() {
        shared_fault(i, areas[i], j, areas[j])?;
    }
    Ok(())
}

// 18: the first two areas that share a byte.
pub(crate) fn pairs_fault(areas: &[Area]) -> Result<(), Refusal>
    requires { AllBounded areas.now }
    ensures { said result ≡ first_fault (later_row areas.now) 0 (length areas.now) }
{
    for i in 0..areas.len() {
        later_fault(areas, i)?;
    }
    Ok(())
}
