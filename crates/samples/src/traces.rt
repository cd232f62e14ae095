// The printed case's trace.
pub const CASE: [u16; 3] = [4, 8, 2];
