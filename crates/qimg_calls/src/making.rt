// One function for each call of a list. Its contract states everything that is proved of that call on a chain.
mod changing;
mod looking;
mod mapping;

pub(crate) use mapping::{Kept, cancel, make};
