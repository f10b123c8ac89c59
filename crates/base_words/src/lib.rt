//! Words of contracts that several crates share, with their laws: sums over the
//! numbers below n, lists gathered by an index, tests in order, signs.
#![tactic(auto)]
