//! By which branch a packet passes.

/// How a packet passes: inside the window, or loosely.
#[derive(Clone, Copy, Debug, PartialEq, Eq)]
pub enum Branch {
    Window,
    Loose,
}
