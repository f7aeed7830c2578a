// Single-axis primitives for locating a reading on one axis: the seven of the Rust's strategy/utils.rs under their names, in its order.
// Each is total, with its checks in front (front.rt), and answers as specs/Calls.antt says.
#![tactic(auto, using(crate::proofs::Primitives::answers), unfolding(crate::specs::Calls::locate_lower_index, crate::specs::Calls::exact_index, crate::specs::Calls::locate_axis, crate::specs::Calls::locate_lower_index_uniform, crate::specs::Calls::validate_uniform_grid, crate::specs::Calls::validate_uniform_grid_epsilon))]

ghost use Rattle.std.specs.Prelude.{◌≡◌, None, IfOk};
ghost use Rattle.answer.specs.Answer.{fine, refused};
ghost use Rattle.answer.specs.Rows.{fault_of, said};
ghost use Rattle.rust.specs.declared.AxisLocation.TheVariants.{Exact};
ghost use Rattle.axis.specs.Cells.{lower_index};
ghost use Rattle.axis.specs.Locations.{axis_location};
ghost use Rattle.utils.specs.Calls.{locate_lower_index, exact_index, locate_axis, locate_fault, locate_step_index};
ghost use Rattle.utils.specs.Calls.{locate_lower_index_uniform, validate_uniform_grid, validate_uniform_grid_epsilon};
ghost use Rattle.utils.specs.Scaffolding.{ReadableAxis};

use answer::{Answer, Refusal};
use axis::{exact, locate, picks, uniform};
use rust::AxisLocation;

// the checks of the primitives, in their orders
mod front;

// What a primitive answers that gives an index.
#[repr(C)]
#[derive(Clone, Copy)]
pub struct IndexAnswer {
    pub answer: Answer,
    pub index: usize,
}

// What `locate_axis` answers.
#[derive(Clone, Copy)]
pub struct AxisAnswer {
    pub answer: Answer,
    pub location: AxisLocation,
}

// What `exact_index` answers.
#[derive(Clone, Copy)]
pub struct ExactAnswer {
    pub answer: Answer,
    pub index: Option<usize>,
}

// ---- what they are made of

// The answer of a refusal, where an index would be given.
impl From<Refusal> for IndexAnswer {
    ghost from_gives = { λ r a. a ≡ record { answer = refused (fault_of r); index = 0 } };

    fn from(refusal: Refusal) -> IndexAnswer {
        IndexAnswer {
            answer: Answer::from(refusal),
            index: 0,
        }
    }
}

// The answer of an index.
impl From<usize> for IndexAnswer {
    ghost from_gives = { λ i a. a ≡ record { answer = fine; index = i } };

    fn from(index: usize) -> IndexAnswer {
        IndexAnswer {
            answer: answer::pass(),
            index,
        }
    }
}

// The answer of a refusal, where a location would be given.
impl From<Refusal> for AxisAnswer {
    ghost from_gives = { λ r a. a ≡ record { answer = refused (fault_of r); location = Exact 0 } };

    fn from(refusal: Refusal) -> AxisAnswer {
        AxisAnswer {
            answer: Answer::from(refusal),
            location: AxisLocation::Exact(0),
        }
    }
}

// The answer of a location.
impl From<AxisLocation> for AxisAnswer {
    ghost from_gives = { λ l a. a ≡ record { answer = fine; location = l } };

    fn from(location: AxisLocation) -> AxisAnswer {
        AxisAnswer {
            answer: answer::pass(),
            location,
        }
    }
}

// The answer of a refusal, where a node would be given if one equals the reading.
impl From<Refusal> for ExactAnswer {
    ghost from_gives = { λ r a. a ≡ record { answer = refused (fault_of r); index = None } };

    fn from(refusal: Refusal) -> ExactAnswer {
        ExactAnswer {
            answer: Answer::from(refusal),
            index: None,
        }
    }
}

// The answer of a node, or of none.
impl From<Option<usize>> for ExactAnswer {
    ghost from_gives = { λ i a. a ≡ record { answer = fine; index = i } };

    fn from(index: Option<usize>) -> ExactAnswer {
        ExactAnswer {
            answer: answer::pass(),
            index,
        }
    }
}

// ---- what two of them find

// The lower node of the cell that a reading lies in; of the first or the last cell for a reading outside.
fn lower_index(grid: &[f64], point: f64) -> usize
    requires { ReadableAxis grid.now point }
    ensures { result ≡ lower_index grid.now point }
{
    let n = grid.len();
    if point < grid[0] {
        return 0;
    }
    if point >= grid[n - 1] {
        return n - 2;
    }
    let mut low = 0;
    let mut high = n - 1;
    while low < high {
        let mid = low + (high - low) / 2;
        if grid[mid] >= point {
            high = mid;
        } else {
            low = mid + 1;
        }
    }
    if low > 0 && grid[low] >= point {
        low - 1
    } else {
        low
    }
}

// Where a reading lies for Linear, with its checks in front and the one of its fraction after it.
#[tactic(auto, using(answer::proofs::Checks::hands, answer::proofs::Checks::stops, answer::proofs::Checks::goes_on, answer::proofs::Checks::both_pass, crate::proofs::Primitives::location_is), unfolding(crate::specs::Calls::locate_fault))]
fn located(grid: &[f64], point: f64) -> Result<AxisLocation, Refusal>
    ensures fault { said result ≡ locate_fault grid.now point }
    ensures location { IfOk result (λ l. l ≡ axis_location grid.now point) }
{
    front::axis_reading_fault(grid, point)?;
    let location = locate::location_by(false, grid, point);
    front::fraction_fault(location)?;
    Ok(location)
}

// ---- the seven primitives

// The lower node of a reading's cell.
pub fn locate_lower_index(grid: &[f64], point: f64) -> IndexAnswer
    ensures { result ≡ locate_lower_index grid.now point }
{
    match front::axis_reading_fault(grid, point) {
        Ok(()) => IndexAnswer::from(lower_index(grid, point)),
        Err(refusal) => IndexAnswer::from(refusal),
    }
}

// Where a reading lies for Linear: on a node, or at a fraction of a cell.
pub fn locate_axis(grid: &[f64], point: f64) -> AxisAnswer
    ensures { result ≡ locate_axis grid.now point }
{
    match located(grid, point) {
        Ok(location) => AxisAnswer::from(location),
        Err(refusal) => AxisAnswer::from(refusal),
    }
}

// The node that Step takes: at or below a reading by the direction 0, at or above it by 1.
#[tactic(auto, using(crate::proofs::Primitives::answers, crate::proofs::Primitives::directed), unfolding(crate::specs::Calls::locate_step_index))]
pub fn locate_step_index(direction: u8, grid: &[f64], point: f64) -> IndexAnswer
    ensures { result ≡ locate_step_index direction grid.now point }
{
    match front::directed_fault(direction, grid, point) {
        Ok(()) => IndexAnswer::from(picks::pick_index(direction, grid, point)),
        Err(refusal) => IndexAnswer::from(refusal),
    }
}

// The node of a cell that equals a reading, if one does.
pub fn exact_index(grid: &[f64], lower: usize, point: f64) -> ExactAnswer
    ensures { result ≡ exact_index grid.now lower point }
{
    match front::exact_fault(grid, lower, point) {
        Ok(()) => ExactAnswer::from(exact::exact_node(grid, lower, point)),
        Err(refusal) => ExactAnswer::from(refusal),
    }
}

// The lower node of a reading's cell on a uniform axis, by its first node and its step.
pub fn locate_lower_index_uniform(first: f64, step: f64, n: usize, point: f64) -> IndexAnswer
    ensures { result ≡ locate_lower_index_uniform first step n point }
{
    match front::uniform_read_fault(first, step, n, point) {
        Ok(()) => IndexAnswer::from(uniform::uniform_index(first, step, n, point)),
        Err(refusal) => IndexAnswer::from(refusal),
    }
}

// Whether an axis is uniform within a lent tolerance.
pub fn validate_uniform_grid(grid: &[f64], tolerance: f64) -> Answer
    ensures { result ≡ validate_uniform_grid grid.now tolerance }
{
    validate_uniform_grid_epsilon(grid, Some(tolerance))
}

// Whether an axis is uniform within a lent tolerance or the default one.
pub fn validate_uniform_grid_epsilon(grid: &[f64], tolerance: Option<f64>) -> Answer
    ensures { result ≡ validate_uniform_grid_epsilon grid.now tolerance }
{
    match front::spacing_fault(grid, tolerance) {
        Ok(()) => answer::pass(),
        Err(refusal) => Answer::from(refusal),
    }
}
