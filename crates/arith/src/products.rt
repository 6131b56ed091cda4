ghost use Rattle.std.specs.Prelude.{◌≡◌, ◌+◌, ◌*◌, ◌/◌, ◌%◌, ◌^◌, ◌<◌, ◌≤◌, IfSome, MatchOption};
ghost use Rattle.std.specs.Option.{unwrap_or};
ghost use Rattle.arith.specs.Pairs.{joint, product_of, quotient_of, after_division};
ghost use Rattle.word.specs.Sign.{product};

use crate::pair::Pair;
use word::Word;

// A times v for A and X, both with the product's sign.
pub fn multiply(a: Word, v: Word) -> Pair
    ensures pair { result ≡ product_of a v }
    ensures size { joint result ≡ a.magnitude * v.magnitude }
    ensures sign_a { result.a.sign ≡ product a.sign v.sign }
    ensures sign_x { result.x.sign ≡ product a.sign v.sign }
{
    let sign = a.sign.times(v.sign);
    Pair::split(sign, sign, whole_product(a, v))
}

// The product of two magnitudes.
pub fn whole_product(a: Word, v: Word) -> u64
    ensures value { result ≡ a.magnitude * v.magnitude }
    ensures bound { result < 2 ^ 60 }
{
    u64::from(a.magnitude) * u64::from(v.magnitude)
}

impl Pair {
    // AX by v: the quotient for A and the remainder for X; none just where |A| ≥ |v|, which turns the
    // toggle on and leaves A and X as they are.
    pub fn divide(self, v: Word) -> Option<Pair>
        ensures pair { result ≡ quotient_of self v }
        ensures stays { unwrap_or result self ≡ after_division self v }
        ensures toggle { MatchOption result (v.magnitude ≤ self.a.magnitude) (λ _. self.a.magnitude < v.magnitude) }
        ensures size { IfSome result (λ q. q.a.magnitude * v.magnitude + q.x.magnitude ≡ joint self) }
        ensures rest { IfSome result (λ q. q.x.magnitude < v.magnitude) }
        ensures sign_a { IfSome result (λ q. q.a.sign ≡ product self.a.sign v.sign) }
        ensures sign_x { IfSome result (λ q. q.x.sign ≡ self.a.sign) }
    {
        if self.a.magnitude >= v.magnitude {
            return None;
        }
        let (quotient, rest) = self.quotient_and_rest(v);
        Some(Pair {
            a: Word::wrapping(self.a.sign.times(v.sign), quotient),
            x: Word::wrapping(self.a.sign, rest),
        })
    }

    // The quotient and the remainder of |AX| by |v|.
    fn quotient_and_rest(self, v: Word) -> (u64, u64)
        requires { self.a.magnitude < v.magnitude }
        ensures quotient { result.0 ≡ joint self / v.magnitude }
        ensures rest { result.1 ≡ joint self % v.magnitude }
        ensures small { result.0 < 2 ^ 30 }
        ensures below { result.1 < v.magnitude }
        ensures law { result.0 * v.magnitude + result.1 ≡ joint self }
    {
        let dividend = self.joint();
        let divisor = u64::from(v.magnitude);
        (dividend / divisor, dividend % divisor)
    }
}
