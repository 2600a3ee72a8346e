//! Reads and writes of tables at places that nothing is proved of.

/// There are no more variables than this, so that the number of one takes 4 bytes.
pub(crate) const MOST: usize = 0xffff_ffff;

// The element, or 0 past the end.
#[inline(always)]
pub(crate) fn at(table: &[u64], i: u64) -> u64 {
    let i = i as usize;
    if i < table.len() { table[i] } else { 0 }
}

// Nothing past the end.
#[inline(always)]
pub(crate) fn put(table: &mut [u64], i: u64, x: u64) {
    let i = i as usize;
    if i < table.len() {
        table[i] = x;
    }
}

// The number, or 0 past the end.
#[inline(always)]
pub(crate) fn number_at(table: &[u32], i: u64) -> u64 {
    let i = i as usize;
    if i < table.len() {
        u64::from(table[i])
    } else {
        0
    }
}

// Nothing past the end; the numbers are at most `MOST`.
#[inline(always)]
pub(crate) fn put_number(table: &mut [u32], i: u64, x: u64) {
    let i = i as usize;
    if i < table.len() {
        table[i] = (x % (1 << 32)) as u32;
    }
}
