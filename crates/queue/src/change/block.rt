// What a reconciliation is asked, beside the lent slices of applied entries and available ids.
use crate::layout::frame::Height;

// Height and tip, how many applied entries are lent, whether the scan has caught up with the tip, how many available ids are lent, and
// the window.
#[derive(Clone, Copy)]
pub struct Block {
    pub height: Height,
    pub tip: [u8; 32],
    pub entries: u64,
    // Kept: a fact of its own: no field has a value only where it is true.
    pub caught: bool,
    pub available: u64,
    pub window: u64,
}
