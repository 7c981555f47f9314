// What column j counts in a mask, or row j in a syndrome.
pub(crate) fn weight(j: usize) -> u64 {
    if j < 64 { 1 << j } else { 0 }
}
