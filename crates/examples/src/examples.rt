ghost use Rattle.std.specs.Prelude.{◌≡◌};
ghost use Rattle.examples.specs.Examples.{area_of_input, table};

use crate::outcomes::Worked;
use arith::{Pair, Shift, multiply};
use cpu::Span;
use eval::Scope;
use flights::{Fault, Issue};
use paper::CardReader;
use rack::{Transfer, Unit};
use std::alloc::Global;
use symbols::Symbols;
use word::{Sign, Word};
use wvalues::w_value;

// All worked examples in one table. Of the values no symbol is defined, and the location is 0.
#[tactic(auto, using(crate::proofs::Values::expression_computed, crate::proofs::Values::fraction_computed, crate::proofs::Values::fields_computed, crate::proofs::Areas::last_computed, crate::proofs::Areas::past_computed))]
pub fn worked(heap: Global) -> Worked
    ensures { result ≡ table }
{
    let symbols = &Symbols::new(heap);
    let scope = Scope { symbols, here: 0 };
    Worked {
        shifts: shifts(),
        product: product(),
        quotient: quotient(),
        expression: scope.value(b"-1+5*20/6"),
        fraction: scope.value(b"1//3"),
        fields: w_value(scope, b"1,-1000(0:2)"),
        last_area: input_area(3984),
        past_the_end: input_area(3985),
    }
}

// A + 1 2 3 4 5 and X - 6 7 8 9 10, then SRAX 1, SLA 2, SRC 4, SRA 2, SLC 501.
#[tactic(auto, using(crate::proofs::Computed::shifts_computed))]
fn shifts() -> Pair
    ensures { result ≡ table.shifts }
{
    let a = Word::wrapping(Sign::Plus, 0x108_3105);
    let x = Word::wrapping(Sign::Minus, 0x61c_824a);
    Pair { a, x }
        .shifted(Shift::Srax, 1)
        .shifted(Shift::Sla, 2)
        .shifted(Shift::Src, 4)
        .shifted(Shift::Sra, 2)
        .shifted(Shift::Slc, 501)
}

// -112 times 2.
#[tactic(auto, using(crate::proofs::Computed::product_computed))]
fn product() -> Pair
    ensures { result ≡ table.product }
{
    multiply(
        Word::wrapping(Sign::Minus, 112),
        Word::wrapping(Sign::Plus, 2),
    )
}

// AX 17 by 3.
#[tactic(auto, using(crate::proofs::Computed::quotient_computed))]
fn quotient() -> Option<Pair>
    ensures { result ≡ table.quotient }
{
    let a = Word::wrapping(Sign::Plus, 0);
    let x = Word::wrapping(Sign::Plus, 17);
    Pair { a, x }.divide(Word::wrapping(Sign::Plus, 3))
}

// The area of an IN from a location on, issued at location 0 of a reader without cards.
fn input_area(from: u16) -> Result<Span, Fault>
    ensures { result ≡ area_of_input from }
{
    let reader = CardReader::new(b"", 200, 80);
    let from = Word::wrapping(Sign::Plus, u64::from(from));
    match Issue::new(&reader, Unit { number: 16 }, Transfer::Take(0), from, 0) {
        Ok(issue) => Ok(issue.flight.area),
        Err(fault) => Err(fault),
    }
}
