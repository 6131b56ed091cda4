ghost use Rattle.std.specs.Prelude.{◌≤◌};

// A field: the bytes `left` to `right` of a word, byte 0 being the sign.
#[derive(Clone, Copy, PartialEq, Eq, Debug)]
pub struct Field {
    pub left: u8,
    pub right: u8,
    ghost ordered: { left ≤ right },
    ghost within: { right ≤ 5 },
}

// The code names no field.
#[derive(Clone, Copy, PartialEq, Eq, Debug)]
pub struct NoField;
