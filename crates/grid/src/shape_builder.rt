/// How the strides of a new grid are given.
// Both orders stand here too, since they are the names that users of the crate know.
#[derive(Clone, Copy, Drop)]
pub enum Strides<S> {
    C,
    F,
    Custom(S),
}
