// A voice's windows, and what it says of a state.
pub mod model;
pub mod window;
