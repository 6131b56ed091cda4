ghost use Rattle.std.specs.Prelude.{◌≡◌};
ghost use Rattle.word.specs.Sign.{opposite, product};

// The sign of a word or of a number.
#[derive(Clone, Copy, PartialEq, Eq, Debug)]
pub enum Sign {
    Plus,
    Minus,
}

impl Sign {
    // The other sign.
    pub fn turned(self) -> Sign
        ensures { result ≡ opposite self }
    {
        match self {
            Sign::Plus => Sign::Minus,
            Sign::Minus => Sign::Plus,
        }
    }

    // The sign of a product or a quotient: plus for like signs.
    pub fn times(self, other: Sign) -> Sign
        ensures { result ≡ product self other }
    {
        match self {
            Sign::Plus => other,
            Sign::Minus => other.turned(),
        }
    }
}
