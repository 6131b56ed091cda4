// Tests of the sheet's text. The expected lines are worked by hand from the rules.
#![tactic(auto)]

#[cfg(test)]
mod sheets;
