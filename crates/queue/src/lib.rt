// The private transaction queue in a lent area.
#![tactic(auto)]

pub mod bytes;
pub mod change;
pub mod check;
pub mod layout;
pub mod read;
pub mod refusal;

// What a changing call leaves to do: nothing, a queue in memory only, a whole write, a write of the cursor.
#[derive(Clone, Copy, PartialEq, Eq, Debug)]
pub enum Kind {
    Nothing,
    Memory,
    Whole,
    Cursor,
}
