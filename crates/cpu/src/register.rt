// The registers that instructions name: A, the six index registers, and X.
#[derive(Clone, Copy, PartialEq, Eq, Debug)]
pub enum Register {
    A,
    I1,
    I2,
    I3,
    I4,
    I5,
    I6,
    X,
}
