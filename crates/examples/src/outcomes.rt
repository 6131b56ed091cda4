use arith::Pair;
use cpu::Span;
use flights::Fault;
use word::Word;

// What the worked examples give.
#[derive(Clone, Copy, PartialEq, Eq, Debug)]
pub struct Worked {
    // A and X after five shifts
    pub shifts: Pair,
    // A and X after MUL
    pub product: Pair,
    // A and X after DIV; none where the toggle went on
    pub quotient: Option<Pair>,
    // an expression worked left to right
    pub expression: Option<Word>,
    // an expression with //
    pub fraction: Option<Word>,
    // a W-value with a field
    pub fields: Option<Word>,
    // the area of an IN that ends with the memory
    pub last_area: Result<Span, Fault>,
    // the area of an IN one location further on
    pub past_the_end: Result<Span, Fault>,
}
