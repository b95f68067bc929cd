// Presses on buttons: whether a button holds a point, what is kept of records from call to call, and what is answered of them.
#![tactic(auto)]

ghost use Rattle.std.specs.Prelude.{◌≡◌};
ghost use Rattle.presses.specs.Buttons.{holds};
ghost use Rattle.presses.specs.Choosing as spec;

use house::Point;

mod calls;

pub use calls::{begin, conclude, counting_from, writing_from};

// A button: a rectangle with an item number, hidden where `shown` is 0.
#[repr(C)]
#[derive(Clone, Copy)]
pub struct Button {
    pub item: u32,
    pub left: i32,
    pub top: i32,
    pub right: i32,
    pub bottom: i32,
    pub shown: u8,
}

// What is kept from call to call: for each contact its state, and the number of the button that it has pressed, or 0. All zeros is fresh.
#[repr(C)]
#[derive(Clone, Copy)]
pub struct Label {
    pub states: [u8; 256],
    pub pressed: [usize; 256],
}

// The button that a point is in: its place in the list plus 1, and its item; 0 and 0 where it is in none.
#[derive(Clone, Copy)]
pub struct Hit {
    pub number: usize,
    pub item: u32,
}

// Whether a record looks at buttons, and the point that it looks at.
#[derive(Clone, Copy)]
pub struct Look {
    pub due: bool,
    pub point: Point,
}

// How far a run over records has come: where the next record stands, and how many choices there were.
#[derive(Clone, Copy)]
pub struct Tally {
    pub at: usize,
    pub count: usize,
}

// What is answered of records: a refusal's number, 0 for none, and how many choices they were.
#[repr(C)]
#[derive(Clone, Copy)]
pub struct Picked {
    pub refusal: u8,
    pub count: usize,
}

// The same, and the label after them.
#[derive(Clone, Copy)]
pub struct Chosen {
    pub label: Label,
    pub refusal: u8,
    pub count: usize,
}

// A label with all contacts out.
#[tactic(auto, unfolding(crate::specs::Choosing::fresh_label))]
pub fn fresh() -> Label
    ensures { result ≡ spec.fresh_label }
{
    Label {
        states: [0; 256],
        pressed: [0; 256],
    }
}

// Whether a button is shown and holds a point.
#[tactic(auto, unfolding(crate::specs::Buttons::holds))]
pub fn is_in(button: Button, x: i32, y: i32) -> bool
    ensures { result ≡ holds button (record { x = x; y = y }) }
{
    (button.shown != 0)
        & (!(x < button.left) & (x < button.right) & !(y < button.top) & (y < button.bottom))
}
