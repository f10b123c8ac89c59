ghost use Rattle.std.specs.Prelude.{◌≡◌, ◌+◌, ◌*◌, ◌<◌, ◌≤◌, length, map, max, pos, slice_index, unsigned_abs};
ghost use Rattle.std.specs.List.{range_with_len};
ghost use Rattle.base_words.specs.Sums.{size_below};
ghost use Rattle.capped_num.specs.Capped.{capped};
ghost use Rattle.sp_model.specs.Reaching.{box_reach, greatest, hedge_part, hedge_reach, raw_reach, step_reach};

use crate::magnitudes::{box_reach, larger, size};
use capped_num::{capped_product, capped_sum};
use sp_model::{Options, Program};

// The product of three numbers, up to the cap.
fn product(a: u128, b: u128, c: u128) -> u128
    ensures { result ≡ capped (a * b * c) }
{
    capped_product(capped_product(a, b), c)
}

// How far a multiplier of a column moves at most from a put to the next.
fn step_reach(program: &Program, options: &Options, total: i128, j: usize) -> u128
    requires { j < length program.now.columns }
    ensures { result ≡ capped (step_reach program.now options.now total j) }
{
    let moves = product(2, size(options.rho), size(total));
    capped_sum(
        capped_product(moves, box_reach(program, j)),
        program.scenarios.len() as u128,
    )
}

// What a column adds by its multipliers.
fn multiplied(program: &Program, options: &Options, total: i128, j: usize) -> u128
    requires { j < length program.now.columns }
    ensures { result
        ≡ capped
        (2 * ((options.now.iterations + 2) * step_reach program.now options.now total j) *
        box_reach program.now j) }
{
    let most = capped_product(
        u128::from(options.iterations) + 2,
        step_reach(program, options, total, j),
    );
    product(2, most, box_reach(program, j))
}

// What a column adds by its squares.
fn squared(program: &Program, options: &Options, total: i128, j: usize) -> u128
    requires { j < length program.now.columns }
    ensures { result
        ≡ capped
        (3 * unsigned_abs options.now.rho * unsigned_abs total *
        (box_reach program.now j * box_reach program.now j)) }
{
    let reach = box_reach(program, j);
    capped_product(
        product(3, size(options.rho), size(total)),
        capped_product(reach, reach),
    )
}

// What a column adds to the magnitude of a hedged objective.
fn hedge_part(program: &Program, options: &Options, total: i128, j: usize) -> u128
    requires { j < length program.now.columns }
    ensures { result ≡ capped (hedge_part program.now options.now total j) }
{
    capped_sum(
        capped_sum(
            multiplied(program, options, total, j),
            squared(program, options, total, j),
        ),
        box_reach(program, j),
    )
}

/// The magnitude of the hedged objectives beyond the costs, up to the cap.
pub fn hedge_reach(program: &Program, options: &Options, total: i128, nonleaf: u32) -> u128
    requires { nonleaf ≤ length program.now.columns }
    ensures { result ≡ capped (hedge_reach program.now options.now total nonleaf) }
{
    let mut sum = 0;
    for j in 0..nonleaf as usize {
        sum = capped_sum(sum, hedge_part(program, options, total, j));
    }
    sum
}

// The greatest box of the columns before the leaf stage.
fn greatest_box(program: &Program, nonleaf: u32) -> u128
    requires { nonleaf ≤ length program.now.columns }
    ensures { result ≡ greatest (map (box_reach program.now) (range_with_len 0 nonleaf)) }
{
    let mut most = 0;
    for j in 0..nonleaf as usize {
        most = larger(most, box_reach(program, j));
    }
    most
}

/// The magnitude of weighted sums over nodes, up to the cap.
pub fn raw_reach(program: &Program, options: &Options, total: i128, nonleaf: u32) -> u128
    requires { nonleaf ≤ length program.now.columns }
    ensures { result ≡ capped (raw_reach program.now options.now total nonleaf) }
{
    let total = size(total);
    let squares = product(2, size(options.rho), capped_product(total, total));
    capped_product(squares, larger(1, greatest_box(program, nonleaf)))
}
