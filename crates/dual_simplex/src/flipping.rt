use crate::fixed_point::{cell_at, times};
use crate::variables::{Column, Variable};

/// Moves the values of the basis along, when a column moves.
pub fn move_rows(rows: &mut [Variable], table: &[i64], width: usize, column: usize, by: i128) {
    let mut place = column;
    for row in rows.iter_mut() {
        let entry = cell_at(table, place);
        if entry != 0 {
            row.value = row.value.wrapping_add(times(entry, by));
        }
        place = place.wrapping_add(width);
    }
}

/// A column at the end that the sign of its cost asks for. Where it has only
/// the other end, its cost is taken for 0.
fn settled(column: &Column) -> Column {
    let variable = column.variable;
    let (wanted, other) = if column.cost >= 0 {
        (variable.low, variable.high)
    } else {
        (variable.high, variable.low)
    };
    if let Some(value) = wanted {
        return Column {
            variable: variable.at(value),
            cost: column.cost,
        };
    }
    Column {
        variable: variable.at(other.unwrap_or(0)),
        cost: 0,
    }
}

/// Puts each column at the end that the sign of its cost asks for.
pub fn settle(columns: &mut [Column], rows: &mut [Variable], table: &[i64]) {
    let width = columns.len();
    for place in 0..columns.len() {
        let before = columns[place].variable.value;
        let next = settled(&columns[place]);
        columns[place] = next;
        let by = next.variable.value.wrapping_sub(before);
        if by != 0 {
            move_rows(rows, table, width, place, by);
        }
    }
}
