/// How many bits of a table's entry stand for its fraction.
pub const ENTRY_BITS: u32 = 36;

/// How many bits of a value stand for its fraction.
pub const VALUE_BITS: i32 = 20;

/// The greatest magnitude of an entry.
const ENTRY_MOST: i128 = 1 << 61;

/// The greatest magnitude that a shift to the left gives.
const SHIFTED_MOST: i128 = 1 << 120;

/// How many bits the magnitude of a number has.
pub fn bits(number: i128) -> u32 {
    128u32.wrapping_sub(number.unsigned_abs().leading_zeros())
}

/// A number times a power of two, rounded down, and cut to 120 bits.
pub fn shifted(number: i128, by: i32) -> i128 {
    let count = by.unsigned_abs();
    if by < 0 {
        let right = if count < 127 { count } else { 127 };
        return number >> right;
    }
    if bits(number).saturating_add(count) > 120 {
        if number == 0 {
            return 0;
        }
        return if number < 0 {
            -SHIFTED_MOST
        } else {
            SHIFTED_MOST
        };
    }
    if count < 128 { number << count } else { 0 }
}

/// An entry times a number.
#[inline(always)]
pub fn times(entry: i64, number: i128) -> i128 {
    i128::from(entry).wrapping_mul(number) >> ENTRY_BITS
}

/// A number as an entry, with a small one taken for 0. None comes where it is
/// too great.
#[inline(always)]
pub fn narrowed(number: i128, least: i128) -> Option<i64> {
    if number > ENTRY_MOST || number < -ENTRY_MOST {
        return None;
    }
    if number < least && number > -least {
        return Some(0);
    }
    Some(number as i64)
}

/// The entry at a place of a table, and 0 outside it.
#[inline(always)]
pub fn cell_at(table: &[i64], place: usize) -> i64 {
    if place < table.len() { table[place] } else { 0 }
}

/// Writes the entry at a place of a table, if there is one.
#[inline(always)]
pub fn put_cell(table: &mut [i64], place: usize, entry: i64) {
    if place < table.len() {
        table[place] = entry;
    }
}
