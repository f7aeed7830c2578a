// The axis of the list, and the calls of the axis primitives.
use crate::line;
use crate::records::{Header, Op};
use test_runs::list::Stop;

pub(crate) const MOST_NODES: usize = 128;

fn say_uniform_index(call: Header) -> Result<(), Stop> {
    let first = binary64::float_of_bits(call.second);
    let step = binary64::float_of_bits(call.third);
    let n = usize::from(call.a);
    line::say_index(utils::locate_lower_index_uniform(first, step, n, call.reading))
}

fn say_grid(nodes: &[f64], call: Header) -> Result<(), Stop> {
    let tolerance = binary64::float_of_bits(call.second);
    line::say_check(utils::validate_uniform_grid(nodes, tolerance))
}

fn say_grid_by_default(nodes: &[f64], call: Header) -> Result<(), Stop> {
    let tolerance = match call.a {
        0 => None,
        1 => Some(binary64::float_of_bits(call.second)),
        _ => return Err(Stop::BadList),
    };
    line::say_check(utils::validate_uniform_grid_epsilon(nodes, tolerance))
}

// Says what a call of an axis primitive answers; the other ops are none.
pub(crate) fn say(nodes: &[f64], call: Header) -> Result<(), Stop> {
    match call.op {
        Op::LowerIndex => line::say_index(utils::locate_lower_index(nodes, call.reading)),
        Op::ExactIndex => {
            line::say_exact(utils::exact_index(nodes, call.second as usize, call.reading))
        }
        Op::Location => line::say_location(utils::locate_axis(nodes, call.reading)),
        Op::StepIndex => line::say_index(utils::locate_step_index(call.a, nodes, call.reading)),
        Op::UniformIndex => say_uniform_index(call),
        Op::Grid => say_grid(nodes, call),
        Op::GridByDefault => say_grid_by_default(nodes, call),
        _ => Err(Stop::BadList),
    }
}
