// The changing calls: what refuses, what becomes of each record, the next area.

pub mod admit;
pub mod block;
pub mod calls;
pub mod clash;
pub mod finish;
pub mod lent;
pub mod own;
pub mod plan;
pub mod ranks;
pub mod reconcile;
pub mod release;
pub mod reopen;
pub mod touch;
pub mod verdict;
pub mod verdicts;
pub mod write;
