// What is drawn of a unit.
ghost use Rattle.std.specs.Prelude.{◌≡◌, ◌<◌, ℕ, IfOk, OnOk, map};
ghost use Rattle.sample_maker.specs.Draws.{next, after, repeated, all_drawn};
ghost use Rattle.sample_maker.specs.Drawn.{parameter_drawn, range_drawn, ranges_drawn, behind_block, step_drawn, function_drawn, behind_function, unit_drawn, behind_unit, function_of, unit_of};

use crate::draws::Draws;
use dw_base::NoMemory;
use std::alloc::Global;

/// A parameter: up to `split`, which counts bytes of its function, it is in a register, and from there on it has the value 0.
#[derive(Clone, Copy)]
pub(crate) struct Parameter {
    pub(crate) split: u32,
    pub(crate) register: u8,
}

/// A row of a line number program: how far it is from the row before it, in address and in line.
#[derive(Clone, Copy)]
pub(crate) struct Step {
    pub(crate) advance: u32,
    pub(crate) line: i8,
}

/// A function.
#[derive(Drop)]
pub(crate) struct Function {
    /// Its bytes.
    pub(crate) size: u32,
    pub(crate) parameters: Vec<Parameter>,
    /// The sizes of the address ranges of the block in it. There are none where it has no block.
    pub(crate) ranges: Vec<u32>,
    /// The column of its rows.
    pub(crate) column: u32,
    /// Its rows behind the first.
    pub(crate) steps: Vec<Step>,
}

/// A unit.
#[derive(Drop)]
pub(crate) struct Unit {
    pub(crate) functions: Vec<Function>,
}

// The bytes up to which a parameter is in a register are a multiple of this, and so is the size of a function.
const GRAIN: u32 = 4;

const LEAST_SIZE: u32 = 16;

const LEAST_RANGE: u32 = 2;

const LEAST_STEPS: u32 = 7;

const REGISTERS: u32 = 16;

fn draw_parameter(draws: &mut Draws) -> Parameter
    ensures drawn { result ≡ parameter_drawn draws.old.state }
    ensures state { draws.new.state ≡ after 2 draws.old.state }
{
    let split = GRAIN * (1 + draws.below(3));
    let register = draws.below(REGISTERS) as u8;
    Parameter { split, register }
}

fn draw_parameters(alloc: Global, draws: &mut Draws, count: u32) -> Result<Vec<Parameter>, NoMemory>
    ensures drawn { IfOk result (λ parameters. parameters.items ≡ all_drawn parameter_drawn (after 2) count draws.old.state) }
    ensures state { OnOk result (draws.new.state ≡ repeated (after 2) count draws.old.state) }
{
    let mut parameters = Vec::new(alloc);
    for _ in 0..count {
        parameters.push(draw_parameter(draws))?;
    }
    Ok(parameters)
}

fn draw_ranges(alloc: Global, draws: &mut Draws, count: u32) -> Result<Vec<u32>, NoMemory>
    ensures drawn { IfOk result (λ ranges. ranges.items ≡ all_drawn range_drawn next count draws.old.state) }
    ensures state { OnOk result (draws.new.state ≡ repeated next count draws.old.state) }
{
    let mut ranges = Vec::new(alloc);
    for _ in 0..count {
        ranges.push(LEAST_RANGE + draws.below(2))?;
    }
    Ok(ranges)
}

// The ranges of a block, where there is one.
fn draw_block(alloc: Global, draws: &mut Draws) -> Result<Vec<u32>, NoMemory>
    ensures drawn { IfOk result (λ ranges. ranges.items ≡ ranges_drawn draws.old.state) }
    ensures state { OnOk result (draws.new.state ≡ behind_block draws.old.state) }
{
    if draws.below(2) == 0 {
        return Ok(Vec::new(alloc));
    }
    let count = 1 + draws.below(3);
    draw_ranges(alloc, draws, count)
}

fn draw_step(draws: &mut Draws) -> Step
    ensures drawn { result ≡ step_drawn draws.old.state }
    ensures state { draws.new.state ≡ after 2 draws.old.state }
{
    let advance = 1 + draws.below(12);
    let line = draws.below(12) as i8 - 2;
    Step { advance, line }
}

fn draw_steps(alloc: Global, draws: &mut Draws, count: u32) -> Result<Vec<Step>, NoMemory>
    ensures drawn { IfOk result (λ steps. steps.items ≡ all_drawn step_drawn (after 2) count draws.old.state) }
    ensures state { OnOk result (draws.new.state ≡ repeated (after 2) count draws.old.state) }
{
    let mut steps = Vec::new(alloc);
    for _ in 0..count {
        steps.push(draw_step(draws))?;
    }
    Ok(steps)
}

#[tactic(auto, unfolding(crate::specs::Drawn::function_drawn, crate::specs::Drawn::behind_function))]
fn draw_function(alloc: Global, draws: &mut Draws) -> Result<Function, NoMemory>
    ensures drawn { IfOk result (λ function. function_of function ≡ function_drawn draws.old.state) }
    ensures state { OnOk result (draws.new.state ≡ behind_function draws.old.state) }
{
    let size = LEAST_SIZE + GRAIN * draws.below(200);
    let count = draws.below(4);
    let parameters = draw_parameters(alloc, draws, count)?;
    let ranges = draw_block(alloc, draws)?;
    let column = 1 + draws.below(40);
    let rows = LEAST_STEPS + draws.below(32);
    let steps = draw_steps(alloc, draws, rows)?;
    Ok(Function {
        size,
        parameters,
        ranges,
        column,
        steps,
    })
}

#[tactic(auto, unfolding(crate::specs::Drawn::unit_drawn, crate::specs::Drawn::behind_unit))]
pub(crate) fn draw_unit(alloc: Global, draws: &mut Draws) -> Result<Unit, NoMemory>
    ensures drawn { IfOk result (λ unit. unit_of unit ≡ unit_drawn draws.old.state) }
    ensures state { OnOk result (draws.new.state ≡ behind_unit draws.old.state) }
{
    let count = 1 + draws.below(8);
    let mut functions = Vec::new(alloc);
    for _ in 0..count {
        functions.push(draw_function(alloc, draws)?)?;
    }
    Ok(Unit { functions })
}
